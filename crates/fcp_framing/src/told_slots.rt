//! The list of an allocation, read in place.

ghost use Rattle.std.specs.Prelude.{◌≡◌, ◌==◌, ◌++◌, ◌||◌, ◌+◌, ◌≤◌, nat_le, map, length};
ghost use Rattle.std.specs.Int.{byte_len};
ghost use Rattle.std.specs.List.{list_any};
ghost use Rattle.fcp_framing.specs.declared.packet.Told.{Told as ToldItem};
ghost use Rattle.fcp_framing.specs.Versions.{mask_width};
ghost use Rattle.fcp_framing.specs.Fields.{allocation_count, allocation_header, allocation_length, told_in_bytes, told_slots_in};
ghost use Rattle.fcp_framing.specs.Refusals.{is_no_core as no_core, is_rising, lines_are_sound, line_is_at_fault};

use crate::fields::{mask_end, told_at, u16_at};
use crate::packet::Told;
use arrayvec::ArrayVec;

/// How many bytes stand before the list, in a version.
pub(crate) fn header(version: u8) -> usize
    ensures { result ≡ 16 + byte_len (mask_width version) + 6 }
{
    mask_end(version) + 6
}

/// How many lines an allocation says that it has.
pub(crate) fn count(bytes: &[u8]) -> u16
    requires { allocation_header bytes.now ≤ length bytes.now }
    ensures { result ≡ allocation_count bytes.now }
{
    u16_at(bytes, mask_end(bytes[0]) + 4)
}

/// The four bytes of each line of an allocation that is all there.
pub(crate) fn entries_of(bytes: &[u8]) -> &[[u8; 4]]
    requires { allocation_length bytes.now ≤ length bytes.now }
    ensures lines { map told_in_bytes result.now ≡ told_slots_in bytes.now }
    ensures len { length result.now ≡ allocation_count bytes.now }
{
    let header = header(bytes[0]);
    let (entries, _) = bytes[header..header + 4 * count(bytes) as usize].as_chunks::<4>();
    entries
}

/// Whether a line names an endpoint that is not there.
pub(crate) fn has_stranger(entries: &[[u8; 4]], endpoints: u16) -> bool
    ensures { result ≡ list_any (λ (told : ToldItem). nat_le endpoints told.dst) (map told_in_bytes entries.now) }
{
    entries
        .iter()
        .map(told_at)
        .any(|told| told.dst >= endpoints)
}

pub(crate) fn has_destination(entries: &[[u8; 4]], endpoint: u16) -> bool
    ensures { result ≡ list_any (λ (told : ToldItem). told.dst == endpoint) (map told_in_bytes entries.now) }
{
    entries.iter().map(told_at).any(|told| told.dst == endpoint)
}

/// Whether a core is neither a switch nor 255 for none.
fn is_no_core(core: u8) -> bool
    ensures { result ≡ no_core core }
{
    matches!(core, 64..=254)
}

/// Whether a line names a slot past the batch, or no core.
pub(crate) fn passes_limits(entries: &[[u8; 4]], slots: u8) -> bool
    ensures { result ≡ list_any (λ (told : ToldItem). nat_le slots told.offset || no_core told.core) (map told_in_bytes entries.now) }
{
    entries
        .iter()
        .map(told_at)
        .any(|told| told.offset >= slots || is_no_core(told.core))
}

/// Whether the offsets rise strictly.
pub(crate) fn rises(entries: &[[u8; 4]]) -> bool
    ensures { result ≡ is_rising (map (λ (told : ToldItem). told.offset) (map told_in_bytes entries.now)) }
{
    let mut least = 0;
    for entry in entries {
        let offset = u16::from(told_at(entry).offset);
        if offset < least {
            return false;
        }
        least = offset + 1;
    }
    true
}

/// Whether a line names an endpoint that is not there or `endpoint` itself, a slot past the batch, or no core.
fn is_at_fault(told: Told, endpoints: u16, endpoint: u16, slots: u8) -> bool
    ensures { result ≡ line_is_at_fault endpoints endpoint slots told }
{
    told.dst >= endpoints || told.dst == endpoint || told.offset >= slots || is_no_core(told.core)
}

/// Whether the offsets rise strictly and no line is at fault. One walk for all that the other tests look for.
pub(crate) fn are_sound(entries: &[[u8; 4]], endpoints: u16, endpoint: u16, slots: u8) -> bool
    ensures { result ≡ lines_are_sound endpoints endpoint slots (map told_in_bytes entries.now) }
{
    let mut least = 0;
    for entry in entries {
        let told = told_at(entry);
        if told.offset < least || is_at_fault(told, endpoints, endpoint, slots) {
            return false;
        }
        least = told.offset + 1;
    }
    true
}

/// Puts the lines in place of what `told` holds: over what stands, and the rest behind.
pub(crate) fn read(entries: &[[u8; 4]], told: &mut ArrayVec<Told, 64>)
    requires { length entries.now ≤ 64 }
    ensures { told.new.items ≡ map told_in_bytes entries.now }
{
    told.truncate(entries.len());
    let (front, rest) = entries.split_at(told.len());
    write_over(told.as_mut_slice(), front);
    append(rest, told);
}

/// Writes the lines over as many others.
fn write_over(places: &mut [Told], entries: &[[u8; 4]])
    requires { length places.old ≡ length entries.now }
    ensures { places.new ≡ map told_in_bytes entries.now }
{
    for (at, entry) in entries.iter().enumerate() {
        places[at] = told_at(entry);
    }
}

fn append(entries: &[[u8; 4]], told: &mut ArrayVec<Told, 64>)
    requires { length told.old.items + length entries.now ≤ 64 }
    ensures { told.new.items ≡ told.old.items ++ map told_in_bytes entries.now }
{
    for entry in entries {
        told.push(told_at(entry));
    }
}
