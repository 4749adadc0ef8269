//! Downward packets: allocations.

ghost use Rattle.std.specs.Prelude.{◌≡◌, ℕ, ◌≤◌, true, length, find, [], ◌∷◌, None, OnOk, OnErr, IsOk};
ghost use Rattle.std.specs.Result.{result_err};
ghost use Rattle.fcp_framing.specs.declared.packet.Down.{Down as DownPacket};
ghost use Rattle.fcp_framing.specs.Spelling.{SpellsDown};
ghost use Rattle.fcp_framing.specs.Fields.{allocation_length, down_of};
ghost use Rattle.fcp_framing.specs.Refusals.{first_refusal, refuses_allocation, refuses_down};

use crate::checks::check_fields;
use crate::fields::{ALLOCATION, is_version, mask_end, mask_in, u16_at, u32_at};
use crate::packet::Down;
use crate::refusal::FrameRefused;
use crate::told_slots;

/// Reads an allocation of either version, in a network of so many endpoints and of a batch of so many slots. What is refused leaves `into` as it was.
pub fn decode_down(
    bytes: &[u8],
    endpoints: u16,
    slots: u8,
    into: &mut Down,
) -> Result<(), FrameRefused>
    requires { endpoints ≤ 256 }
    // What is read stands in the bytes, and they spell it; what is spelled so is read.
    ensures read { OnOk result (into.new ≡ down_of bytes.now) }
    ensures spelled { OnOk result (SpellsDown endpoints slots bytes.now into.new) }
    ensures only { (down : DownPacket) → SpellsDown endpoints slots bytes.now down → IsOk result × (into.new ≡ down) }
    // Other bytes are refused, for the first reason of the table.
    ensures refused { result_err result ≡ first_refusal (refuses_down endpoints slots bytes.now) }
    ensures unchanged { OnErr result (into.new ≡ into.old) }
{
    read_down(bytes, endpoints, slots, into)
}

/// What `decode_down` does, by the table alone.
#[tactic(auto, unfolding(crate::specs::Refusals::first_refusal, crate::specs::Refusals::refuses_down))]
fn read_down(bytes: &[u8], endpoints: u16, slots: u8, into: &mut Down) -> Result<(), FrameRefused>
    ensures refused { result_err result ≡ first_refusal (refuses_down endpoints slots bytes.now) }
    ensures read { OnOk result (into.new ≡ down_of bytes.now) }
    ensures unchanged { OnErr result (into.new ≡ into.old) }
{
    if bytes.len() < 2 {
        return Err(FrameRefused::Short);
    }
    if !is_version(bytes[0]) {
        return Err(FrameRefused::Version);
    }
    match bytes[1] {
        ALLOCATION => read_allocation(bytes, endpoints, slots, into),
        _ => Err(FrameRefused::Kind),
    }
}

#[tactic(auto, unfolding(crate::specs::Refusals::first_refusal, crate::specs::Fields::down_of))]
fn read_allocation(
    bytes: &[u8],
    endpoints: u16,
    slots: u8,
    into: &mut Down,
) -> Result<(), FrameRefused>
    requires { 1 ≤ length bytes.now }
    ensures refused { result_err result ≡ first_refusal (refuses_allocation endpoints slots bytes.now) }
    ensures read { OnOk result (into.new ≡ down_of bytes.now) }
    ensures unchanged { OnErr result (into.new ≡ into.old) }
{
    check_allocation(bytes, endpoints, slots)?;
    let version = bytes[0];
    let dst = u16_at(bytes, 2);
    let epoch = u32_at(bytes, 4);
    let seq = u32_at(bytes, 8);
    let high = u32_at(bytes, 12);
    let mask = mask_in(bytes);
    let batch = u32_at(bytes, mask_end(version));
    let entries = told_slots::entries_of(bytes);
    into.version = version;
    into.dst = dst;
    into.epoch = epoch;
    into.seq = seq;
    into.high = high;
    into.mask = mask;
    into.batch = batch;
    told_slots::read(entries, &mut into.told);
    Ok(())
}

/// Tries the refusals of an allocation in their order.
#[tactic(auto, using(std::proofs::lemmas::Bool::Decides::nat_tests), unfolding(crate::specs::Refusals::first_refusal))]
fn check_allocation(bytes: &[u8], endpoints: u16, slots: u8) -> Result<(), FrameRefused>
    requires { 1 ≤ length bytes.now }
    ensures { result_err result ≡ first_refusal (refuses_allocation endpoints slots bytes.now) }
{
    let header = told_slots::header(bytes[0]);
    if bytes.len() < header {
        return Err(FrameRefused::Short);
    }
    let end = header + 4 * told_slots::count(bytes) as usize;
    if bytes.len() < end {
        return Err(FrameRefused::Short);
    }
    check_lines(bytes, endpoints, slots)?;
    check_fields(bytes, end)
}

/// Tries the refusals that look at the endpoints and the lines of an allocation. Most have none, which one walk shows.
fn check_lines(bytes: &[u8], endpoints: u16, slots: u8) -> Result<(), FrameRefused>
    requires { allocation_length bytes.now ≤ length bytes.now }
    ensures { result_err result ≡ find (refuses_allocation endpoints slots bytes.now)
        (FrameRefused.Endpoint ∷ FrameRefused.Count ∷ FrameRefused.Order ∷ FrameRefused.SelfFlow ∷ FrameRefused.TooMuch ∷ []) }
{
    if has_sound_lines(bytes, endpoints, slots) {
        return Ok(());
    }
    check_destinations(bytes, endpoints)?;
    check_told(bytes, slots)
}

/// Whether the endpoints and the lines of an allocation keep every rule.
fn has_sound_lines(bytes: &[u8], endpoints: u16, slots: u8) -> bool
    requires { allocation_length bytes.now ≤ length bytes.now }
    ensures { result ≡ true → find (refuses_allocation endpoints slots bytes.now)
        (FrameRefused.Endpoint ∷ FrameRefused.Count ∷ FrameRefused.Order ∷ FrameRefused.SelfFlow ∷ FrameRefused.TooMuch ∷ []) ≡ None }
{
    let dst = u16_at(bytes, 2);
    let entries = told_slots::entries_of(bytes);
    if dst >= endpoints {
        return false;
    }
    if entries.len() > 64 {
        return false;
    }
    told_slots::are_sound(entries, endpoints, dst, slots)
}

/// Tries the refusals that look at the endpoints of an allocation, how many lines there are, and in which order.
#[tactic(auto, using(std::proofs::lemmas::Bool::Decides::nat_tests))]
fn check_destinations(bytes: &[u8], endpoints: u16) -> Result<(), FrameRefused>
    requires { allocation_length bytes.now ≤ length bytes.now }
    ensures { (slots : ℕ) → result_err result ≡ find (refuses_allocation endpoints slots bytes.now)
        (FrameRefused.Endpoint ∷ FrameRefused.Count ∷ FrameRefused.Order ∷ []) }
{
    let entries = told_slots::entries_of(bytes);
    if u16_at(bytes, 2) >= endpoints || told_slots::has_stranger(entries, endpoints) {
        return Err(FrameRefused::Endpoint);
    }
    if told_slots::count(bytes) > 64 {
        return Err(FrameRefused::Count);
    }
    if !told_slots::rises(entries) {
        return Err(FrameRefused::Order);
    }
    Ok(())
}

/// Tries the refusals that look at each line of an allocation.
#[tactic(auto, using(std::proofs::lemmas::Bool::Decides::nat_tests))]
fn check_told(bytes: &[u8], slots: u8) -> Result<(), FrameRefused>
    requires { allocation_length bytes.now ≤ length bytes.now }
    ensures { (endpoints : ℕ) → result_err result ≡ find (refuses_allocation endpoints slots bytes.now) (FrameRefused.SelfFlow ∷ FrameRefused.TooMuch ∷ []) }
{
    let entries = told_slots::entries_of(bytes);
    if told_slots::has_destination(entries, u16_at(bytes, 2)) {
        return Err(FrameRefused::SelfFlow);
    }
    if told_slots::passes_limits(entries, slots) {
        return Err(FrameRefused::TooMuch);
    }
    Ok(())
}
