//! The lines of a slot whose packets stand by source.
ghost use Rattle.std.specs.Prelude.{◌≡◌, ◌+◌, ◌*◌, ◌<◌, ◌≤◌, ◌∷◌, ◌++◌, [], None, length, take};
ghost use Rattle.std.specs.List.{slice_index_or};
ghost use Rattle.list_facts.specs.Bits.{TellsHeld};
ghost use Rattle.report_text.specs.Lines.{line_bytes};
ghost use Rattle.report_text.specs.SlotLines.{packet_text, row_text};

use crate::Line;
use crate::buffer::spell_core;
use crate::numeral::Numeral;
use crate::put::put;
use crate::short_fields::ShortFields;

/// Spells the lines of some sources at this place, and answers where they end. A source that sends is found by its bit in
/// `senders`, the first one's the lowest, so none is looked at that doesn't send.
pub(crate) fn spell_packets(
    small: &ShortFields,
    buf: &mut [u8],
    at: usize,
    slot: &Numeral,
    from: usize,
    row: &[Option<u16>],
    senders: u64,
    cores: &[Option<u16>],
) -> usize
    requires senders { TellsHeld row.now senders }
    requires sources { from + length row.now ≤ 1000 }
    requires cores { from + length row.now ≤ length cores.now }
    requires room { at + 64 * length row.now ≤ length buf.old }
    ensures fits { result ≤ at + 64 * length row.now }
    ensures written { take result buf.new ≡ take at buf.old ++ row_text slot.now cores.now from row.now }
    ensures count { length buf.new ≡ length buf.old }
{
    let mut end = at;
    let mut rest = senders;
    while rest != 0 {
        let here = rest.trailing_zeros() as usize;
        end = spell_place(small, buf, end, slot, from + here, row[here], cores);
        rest &= rest - 1;
    }
    end
}

/// Spells the line of a source, if it sends.
#[inline(always)]
fn spell_place(
    small: &ShortFields,
    buf: &mut [u8],
    at: usize,
    slot: &Numeral,
    src: usize,
    to: Option<u16>,
    cores: &[Option<u16>],
) -> usize
    requires source { src < 1000 }
    requires core { src < length cores.now }
    requires room { at + 64 ≤ length buf.old }
    ensures fits { result ≤ at + 64 }
    ensures written { take result buf.new ≡ take at buf.old ++ packet_text slot.now cores.now src to }
    ensures count { length buf.new ≡ length buf.old }
{
    match to {
        Some(dst) => spell_packet(small, buf, at, slot, src, dst, cores),
        None => at,
    }
}

/// Spells the line of a source that sends to this destination.
#[inline(always)]
fn spell_packet(
    small: &ShortFields,
    buf: &mut [u8],
    at: usize,
    slot: &Numeral,
    src: usize,
    dst: u16,
    cores: &[Option<u16>],
) -> usize
    requires source { src < 1000 }
    requires core { src < length cores.now }
    requires room { at + 64 ≤ length buf.old }
    ensures fits { result ≤ at + 64 }
    ensures written { take result buf.new ≡ take at buf.old
        ++ (line_bytes (Line.Slot slot.now src dst (slice_index_or cores.now src None)) ++ 10 ∷ []) }
    ensures count { length buf.new ≡ length buf.old }
{
    let at = put(buf, at, b"slot");
    let at = slot.put(buf, at);
    let at = small.put_small(buf, at, src as u32);
    let at = small.put(buf, at, dst.into());
    let at = spell_core(small, buf, at, cores[src]);
    put(buf, at, b"\n")
}
