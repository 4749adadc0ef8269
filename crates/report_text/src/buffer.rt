//! Lines spelled one behind the other.
ghost use Rattle.std.specs.Prelude.{◌≡◌, ◌+◌, ◌≤◌, ◌↔◌, [], ◌∷◌, ◌++◌, length, take, Option, IfOk, IsTrue, MatchBool};
ghost use Rattle.list_facts.specs.Bits.{TellsHeld};
ghost use Rattle.report_text.specs.Lines.{line_bytes, fields, core_field, HasName};
ghost use Rattle.report_text.specs.Buffer.{HasRoom, HasRoomFor, IsFull};
ghost use Rattle.report_text.specs.SlotLines.{row_text};

use crate::numeral::Numeral;
use crate::put::put;
use crate::short_fields::ShortFields;
use crate::slot_lines::spell_packets;
use crate::{Line, write_line};
use std::alloc::{AllocError, Global};
use std::marker::Model;

/// The most bytes that a line takes, with its line feed.
const LINE: usize = 192;

/// The most bytes that a packet of a slot takes.
const PACKET: usize = 64;

/// How many bytes there are.
const CAPACITY: usize = 65_536;

/// Lines in a buffer of 65,536 bytes: each is spelled behind the one before it.
#[derive(Debug, Drop)]
pub struct LineBuffer {
    small: ShortFields,
    bytes: Vec<u8>,
    end: usize,
}

impl Model for LineBuffer {
    ghost use Rattle.std.specs.Prelude.{◌≡◌, ◌≤◌, ℕ, List, take, vec_len};
    ghost use Rattle.report_text.specs.Buffer.{capacity};

    ghost Value = { List ℕ };

    ghost view = { λ b. take b.end b.bytes.items };

    ghost invariant = { λ b. (vec_len b.bytes ≡ capacity) × (b.end ≤ capacity) };
}

impl LineBuffer {
    /// A buffer without a line.
    pub fn open(alloc: Global) -> Result<LineBuffer, AllocError>
        ensures { IfOk result (λ buffer. buffer ≡ []) }
    {
        Ok(LineBuffer {
            small: ShortFields::new(),
            bytes: vec![in alloc; 0; CAPACITY]?,
            end: 0,
        })
    }

    /// The lines so far, each with its line feed.
    pub fn text(&self) -> &[u8]
        ensures { result.now ≡ self.now }
    {
        &self.bytes[..self.end]
    }

    /// Whether there is room for any line more.
    pub fn has_room(&self) -> bool
        ensures { MatchBool result (HasRoom self.now) (IsFull self.now) }
    {
        self.end + LINE <= CAPACITY
    }

    /// Whether there is room for so many packets of slots more.
    pub fn has_room_for(&self, packets: usize) -> bool
        requires { packets ≤ 1000 }
        ensures { IsTrue result ↔ HasRoomFor packets self.now }
    {
        self.end + PACKET * packets <= CAPACITY
    }

    /// Forgets all lines.
    pub fn clear(&mut self)
        ensures { self.new ≡ [] }
    {
        self.end = 0;
    }

    /// A packet of a slot, and the core that it takes where it leaves its rack.
    pub fn put_slot(&mut self, slot: &Numeral, src: u16, dst: u16, core: Option<u16>)
        requires { HasRoom self.old }
        ensures { self.new ≡ self.old ++ (line_bytes (Line.Slot slot.now src dst core) ++ 10 ∷ []) }
    {
        let buf = &mut self.bytes[..];
        self.end = spell_slot(&self.small, buf, self.end, slot, src, dst, core);
    }

    /// The packets of a slot that some sources send, the first of them `from`, each with the core at its place. A bit of
    /// `senders` tells of each source whether it sends, the lowest bit of the first one; none past the 64th does.
    pub fn put_packets(
        &mut self,
        slot: &Numeral,
        from: usize,
        row: &[Option<u16>],
        senders: u64,
        cores: &[Option<u16>],
    )
        requires senders { TellsHeld row.now senders }
        requires sources { from + length row.now ≤ 1000 }
        requires cores { from + length row.now ≤ length cores.now }
        requires room { HasRoomFor (length row.now) self.old }
        ensures { self.new ≡ self.old ++ row_text slot.now cores.now from row.now }
    {
        let buf = &mut self.bytes[..];
        self.end = spell_packets(&self.small, buf, self.end, slot, from, row, senders, cores);
    }

    /// A packet that its endpoint sent.
    pub fn put_sent(&mut self, slot: &Numeral, src: u16, dst: u16)
        requires { HasRoom self.old }
        ensures { self.new ≡ self.old ++ (line_bytes (Line.Sent slot.now src dst) ++ 10 ∷ []) }
    {
        let buf = &mut self.bytes[..];
        self.end = spell_sent(&self.small, buf, self.end, slot, src, dst);
    }

    /// What a batch records of a flow.
    pub fn put_batch(&mut self, batch: &Numeral, src: u16, dst: u16, clear: bool, add: u32)
        requires { HasRoom self.old }
        ensures { self.new ≡ self.old ++ (line_bytes (Line.Batch batch.now src dst clear add) ++ 10 ∷ []) }
    {
        let buf = &mut self.bytes[..];
        self.end = spell_batch(&self.small, buf, self.end, batch, src, dst, clear, add);
    }

    /// Any line.
    pub fn put_line(&mut self, line: &Line)
        // The number of a refusal is one that has a name: 1 to 12, 21 to 24 or 26.
        requires name { HasName line.now }
        requires room { HasRoom self.old }
        ensures { self.new ≡ self.old ++ (line_bytes line.now ++ 10 ∷ []) }
    {
        let mut spelled = [0; LINE];
        let length = write_line(line, &mut spelled);
        let buf = &mut self.bytes[..];
        self.end = put(buf, self.end, &spelled[..length]);
    }
}

fn spell_slot(
    small: &ShortFields,
    buf: &mut [u8],
    at: usize,
    slot: &Numeral,
    src: u16,
    dst: u16,
    core: Option<u16>,
) -> usize
    requires { at + LINE ≤ length buf.old }
    ensures fits { result ≤ at + LINE }
    ensures written { take result buf.new ≡ take at buf.old ++ (line_bytes (Line.Slot slot.now src dst core) ++ 10 ∷ []) }
    ensures count { length buf.new ≡ length buf.old }
{
    let at = put(buf, at, b"slot");
    let at = slot.put(buf, at);
    let at = small.put(buf, at, src.into());
    let at = small.put(buf, at, dst.into());
    let at = spell_core(small, buf, at, core);
    put(buf, at, b"\n")
}

pub(crate) fn spell_core(small: &ShortFields, buf: &mut [u8], at: usize, core: Option<u16>) -> usize
    requires { at + 16 ≤ length buf.old }
    ensures fits { result ≤ at + 11 }
    ensures written { take result buf.new ≡ take at buf.old ++ fields (core_field core ∷ []) }
    ensures count { length buf.new ≡ length buf.old }
{
    match core {
        Some(core) => small.put(buf, at, core.into()),
        None => put(buf, at, b",-"),
    }
}

fn spell_sent(
    small: &ShortFields,
    buf: &mut [u8],
    at: usize,
    slot: &Numeral,
    src: u16,
    dst: u16,
) -> usize
    requires { at + LINE ≤ length buf.old }
    ensures fits { result ≤ at + LINE }
    ensures written { take result buf.new ≡ take at buf.old ++ (line_bytes (Line.Sent slot.now src dst) ++ 10 ∷ []) }
    ensures count { length buf.new ≡ length buf.old }
{
    let at = put(buf, at, b"sent");
    let at = slot.put(buf, at);
    let at = small.put(buf, at, src.into());
    let at = small.put(buf, at, dst.into());
    put(buf, at, b"\n")
}

fn spell_batch(
    small: &ShortFields,
    buf: &mut [u8],
    at: usize,
    batch: &Numeral,
    src: u16,
    dst: u16,
    clear: bool,
    add: u32,
) -> usize
    requires { at + LINE ≤ length buf.old }
    ensures fits { result ≤ at + LINE }
    ensures written { take result buf.new ≡ take at buf.old ++ (line_bytes (Line.Batch batch.now src dst clear add) ++ 10 ∷ []) }
    ensures count { length buf.new ≡ length buf.old }
{
    let at = put(buf, at, b"batch");
    let at = batch.put(buf, at);
    let at = small.put(buf, at, src.into());
    let at = small.put(buf, at, dst.into());
    let at = small.put(buf, at, clear.into());
    let at = small.put(buf, at, add);
    put(buf, at, b"\n")
}
