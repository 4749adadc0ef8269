//! The list of a request, read in place.

ghost use Rattle.std.specs.Prelude.{◌≡◌, ◌==◌, ◌++◌, ◌+◌, ◌≤◌, nat_le, nat_lt, map, length};
ghost use Rattle.std.specs.Int.{byte_len};
ghost use Rattle.std.specs.List.{list_any};
ghost use Rattle.fcp_framing.specs.declared.packet.Demand.{Demand as DemandItem};
ghost use Rattle.fcp_framing.specs.Versions.{mask_width};
ghost use Rattle.fcp_framing.specs.Fields.{demand_in, demands_in, request_count, request_header, request_length};
ghost use Rattle.fcp_framing.specs.Refusals.{is_rising};

use crate::fields::{demand_at, mask_end, u16_at};
use crate::packet::Demand;
use arrayvec::ArrayVec;

/// The greatest total that a request may name.
const GREATEST_TOTAL: u32 = 200_000_000;

/// How many bytes stand before the list, in a version.
pub(crate) fn header(version: u8) -> usize
    ensures { result ≡ 16 + byte_len (mask_width version) + 2 }
{
    mask_end(version) + 2
}

/// How many lines a request says that it has.
pub(crate) fn count(bytes: &[u8]) -> u16
    requires { request_header bytes.now ≤ length bytes.now }
    ensures { result ≡ request_count bytes.now }
{
    u16_at(bytes, mask_end(bytes[0]))
}

/// The six bytes of each line of a request that is all there.
pub(crate) fn entries_of(bytes: &[u8]) -> &[[u8; 6]]
    requires { request_length bytes.now ≤ length bytes.now }
    ensures lines { map demand_in result.now ≡ demands_in bytes.now }
    ensures len { length result.now ≡ request_count bytes.now }
{
    let header = header(bytes[0]);
    let (entries, _) = bytes[header..header + 6 * count(bytes) as usize].as_chunks::<6>();
    entries
}

/// Whether a line names an endpoint that is not there.
pub(crate) fn has_stranger(entries: &[[u8; 6]], endpoints: u16) -> bool
    ensures { result ≡ list_any (λ (demand : DemandItem). nat_le endpoints demand.dst) (map demand_in entries.now) }
{
    entries
        .iter()
        .map(demand_at)
        .any(|demand| demand.dst >= endpoints)
}

pub(crate) fn has_destination(entries: &[[u8; 6]], endpoint: u16) -> bool
    ensures { result ≡ list_any (λ (demand : DemandItem). demand.dst == endpoint) (map demand_in entries.now) }
{
    entries
        .iter()
        .map(demand_at)
        .any(|demand| demand.dst == endpoint)
}

pub(crate) fn asks_too_much(entries: &[[u8; 6]]) -> bool
    ensures { result ≡ list_any (λ (demand : DemandItem). nat_lt 200000000 demand.total) (map demand_in entries.now) }
{
    entries
        .iter()
        .map(demand_at)
        .any(|demand| demand.total > GREATEST_TOTAL)
}

/// Whether the destinations rise strictly.
pub(crate) fn rises(entries: &[[u8; 6]]) -> bool
    ensures { result ≡ is_rising (map (λ (demand : DemandItem). demand.dst) (map demand_in entries.now)) }
{
    let mut least = 0;
    for entry in entries {
        let dst = u32::from(demand_at(entry).dst);
        if dst < least {
            return false;
        }
        least = dst + 1;
    }
    true
}

/// Puts the lines in place of what `demands` holds: over what stands, and the rest behind.
pub(crate) fn read(entries: &[[u8; 6]], demands: &mut ArrayVec<Demand, 255>)
    requires { length entries.now ≤ 255 }
    ensures { demands.new.items ≡ map demand_in entries.now }
{
    demands.truncate(entries.len());
    let (front, rest) = entries.split_at(demands.len());
    write_over(demands.as_mut_slice(), front);
    append(rest, demands);
}

/// Writes the lines over as many others.
fn write_over(places: &mut [Demand], entries: &[[u8; 6]])
    requires { length places.old ≡ length entries.now }
    ensures { places.new ≡ map demand_in entries.now }
{
    for (at, entry) in entries.iter().enumerate() {
        places[at] = demand_at(entry);
    }
}

fn append(entries: &[[u8; 6]], demands: &mut ArrayVec<Demand, 255>)
    requires { length demands.old.items + length entries.now ≤ 255 }
    ensures { demands.new.items ≡ demands.old.items ++ map demand_in entries.now }
{
    for entry in entries {
        demands.push(demand_at(entry));
    }
}
