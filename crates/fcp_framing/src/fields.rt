//! Numbers and list entries in the bytes of a packet.

ghost use Rattle.std.specs.Prelude.{◌≡◌, ◌+◌, ◌≤◌, length};
ghost use Rattle.std.specs.Int.{w16, w32, w64, w128, byte_len};
ghost use Rattle.fcp_framing.specs.Versions.{is_version as has_layouts, mask_width};
ghost use Rattle.fcp_framing.specs.Fields.{number_at, mask_in as mask_value, mask_end as end_of_mask, demand_in, told_in_bytes};

use crate::packet::{Demand, Told};

pub(crate) const REQUEST: u8 = 1;

pub(crate) const RESET: u8 = 2;

pub(crate) const ALLOCATION: u8 = 3;

pub(crate) const RESET_LENGTH: usize = 8;

/// Where the mask of a request or an allocation begins.
pub(crate) const MASK: usize = 16;

/// Whether there are layouts of this version.
pub(crate) fn is_version(version: u8) -> bool
    ensures { result ≡ has_layouts version }
{
    matches!(version, 1 | 2)
}

/// Where the mask ends in a version's requests and allocations.
#[tactic(auto, unfolding(crate::specs::Versions::mask_width))]
pub(crate) fn mask_end(version: u8) -> usize
    ensures end { result ≡ 16 + byte_len (mask_width version) }
    ensures within { result ≤ 32 }
{
    if version == 2 { MASK + 16 } else { MASK + 8 }
}

/// The mask of a request or an allocation, as wide as its version has it.
#[tactic(auto, unfolding(crate::specs::Versions::mask_width))]
pub(crate) fn mask_in(bytes: &[u8]) -> u128
    requires { end_of_mask bytes.now ≤ length bytes.now }
    ensures { result ≡ mask_value bytes.now }
{
    if bytes[0] == 2 {
        u128_at(bytes, MASK)
    } else {
        u128::from(u64_at(bytes, MASK))
    }
}

/// The number in two bytes at `at`.
#[tactic(auto, unfolding(crate::specs::Fields::number_at))]
pub(crate) fn u16_at(bytes: &[u8], at: usize) -> u16
    requires { at + 2 ≤ length bytes.now }
    ensures { result ≡ number_at w16 at bytes.now }
{
    u16::from_be_bytes([bytes[at], bytes[at + 1]])
}

/// The number in four bytes at `at`.
#[tactic(auto, unfolding(crate::specs::Fields::number_at))]
pub(crate) fn u32_at(bytes: &[u8], at: usize) -> u32
    requires { at + 4 ≤ length bytes.now }
    ensures { result ≡ number_at w32 at bytes.now }
{
    u32::from_be_bytes([bytes[at], bytes[at + 1], bytes[at + 2], bytes[at + 3]])
}

/// The number in eight bytes at `at`.
#[tactic(auto, unfolding(crate::specs::Fields::number_at))]
fn u64_at(bytes: &[u8], at: usize) -> u64
    requires { at + 8 ≤ length bytes.now }
    ensures { result ≡ number_at w64 at bytes.now }
{
    u64::from_be_bytes([
        bytes[at],
        bytes[at + 1],
        bytes[at + 2],
        bytes[at + 3],
        bytes[at + 4],
        bytes[at + 5],
        bytes[at + 6],
        bytes[at + 7],
    ])
}

/// The number in sixteen bytes at `at`.
#[tactic(auto, unfolding(crate::specs::Fields::number_at))]
fn u128_at(bytes: &[u8], at: usize) -> u128
    requires { at + 16 ≤ length bytes.now }
    ensures { result ≡ number_at w128 at bytes.now }
{
    let mut number = [0; 16];
    number.copy_from_slice(&bytes[at..at + 16]);
    u128::from_be_bytes(number)
}

#[tactic(auto, unfolding(crate::specs::Fields::number_at))]
pub(crate) fn demand_at(entry: &[u8; 6]) -> Demand
    ensures { result ≡ demand_in entry.now }
{
    let [a, b, c, d, e, f] = *entry;
    Demand {
        dst: u16::from_be_bytes([a, b]),
        total: u32::from_be_bytes([c, d, e, f]),
    }
}

#[tactic(auto, unfolding(crate::specs::Fields::number_at))]
pub(crate) fn told_at(entry: &[u8; 4]) -> Told
    ensures { result ≡ told_in_bytes entry.now }
{
    let [offset, core, a, b] = *entry;
    Told {
        offset,
        core,
        dst: u16::from_be_bytes([a, b]),
    }
}
