//! Upward packets: resets and requests.

ghost use Rattle.std.specs.Prelude.{◌≡◌, ℕ, ◌≤◌, length, find, [], ◌∷◌, OnOk, OnErr, IsOk};
ghost use Rattle.std.specs.Result.{result_err};
ghost use Rattle.fcp_framing.specs.declared.packet.Up.{Up as UpPacket};
ghost use Rattle.fcp_framing.specs.Spelling.{SpellsUp, reset_of};
ghost use Rattle.fcp_framing.specs.Fields.{version_in, endpoint_in, epoch_in, request_of, request_length, up_of};
ghost use Rattle.fcp_framing.specs.Refusals.{first_refusal, refuses_up, refuses_reset, refuses_request};

use crate::checks::check_fields;
use crate::demands;
use crate::fields::{REQUEST, RESET, RESET_LENGTH, is_version, mask_in, u16_at, u32_at};
use crate::packet::Up;
use crate::refusal::FrameRefused;

/// Reads a reset or a request of either version, in a network of so many endpoints. What is refused leaves `into` as it was.
pub fn decode_up(bytes: &[u8], endpoints: u16, into: &mut Up) -> Result<(), FrameRefused>
    requires { endpoints ≤ 256 }
    // What is read stands in the bytes, and they spell it; what is spelled so is read.
    ensures read { OnOk result (into.new ≡ up_of bytes.now) }
    ensures spelled { OnOk result (SpellsUp endpoints bytes.now into.new) }
    ensures only { (up : UpPacket) → SpellsUp endpoints bytes.now up → IsOk result × (into.new ≡ up) }
    // Other bytes are refused, for the first reason of the table.
    ensures refused { result_err result ≡ first_refusal (refuses_up endpoints bytes.now) }
    ensures unchanged { OnErr result (into.new ≡ into.old) }
{
    read_up(bytes, endpoints, into)
}

/// What `decode_up` does, by the table alone.
#[tactic(auto, unfolding(crate::specs::Refusals::first_refusal, crate::specs::Refusals::refuses_up, crate::specs::Fields::up_of))]
fn read_up(bytes: &[u8], endpoints: u16, into: &mut Up) -> Result<(), FrameRefused>
    requires { endpoints ≤ 256 }
    ensures refused { result_err result ≡ first_refusal (refuses_up endpoints bytes.now) }
    ensures read { OnOk result (into.new ≡ up_of bytes.now) }
    ensures unchanged { OnErr result (into.new ≡ into.old) }
{
    if bytes.len() < 2 {
        return Err(FrameRefused::Short);
    }
    if !is_version(bytes[0]) {
        return Err(FrameRefused::Version);
    }
    match bytes[1] {
        REQUEST => read_request(bytes, endpoints, into),
        RESET => read_reset(bytes, endpoints, into),
        _ => Err(FrameRefused::Kind),
    }
}

#[tactic(auto, unfolding(crate::specs::Refusals::first_refusal))]
fn read_reset(bytes: &[u8], endpoints: u16, into: &mut Up) -> Result<(), FrameRefused>
    requires { 1 ≤ length bytes.now }
    ensures refused { result_err result ≡ first_refusal (refuses_reset endpoints bytes.now) }
    ensures read { OnOk result (into.new ≡ reset_of (version_in bytes.now) (endpoint_in bytes.now) (epoch_in bytes.now)) }
    ensures unchanged { OnErr result (into.new ≡ into.old) }
{
    if bytes.len() < RESET_LENGTH {
        return Err(FrameRefused::Short);
    }
    let src = u16_at(bytes, 2);
    let epoch = u32_at(bytes, 4);
    if src >= endpoints {
        return Err(FrameRefused::Endpoint);
    }
    if bytes.len() > RESET_LENGTH {
        return Err(FrameRefused::Trailing);
    }
    if epoch == 0 {
        return Err(FrameRefused::Epoch);
    }
    into.version = bytes[0];
    into.reset = true;
    into.src = src;
    into.epoch = epoch;
    into.seq = 0;
    into.high = 0;
    into.mask = 0;
    into.demands.truncate(0);
    Ok(())
}

#[tactic(auto, unfolding(crate::specs::Refusals::first_refusal))]
fn read_request(bytes: &[u8], endpoints: u16, into: &mut Up) -> Result<(), FrameRefused>
    requires network { endpoints ≤ 256 }
    requires begun { 1 ≤ length bytes.now }
    ensures refused { result_err result ≡ first_refusal (refuses_request endpoints bytes.now) }
    ensures read { OnOk result (into.new ≡ request_of bytes.now) }
    ensures unchanged { OnErr result (into.new ≡ into.old) }
{
    check_request(bytes, endpoints)?;
    let version = bytes[0];
    let src = u16_at(bytes, 2);
    let epoch = u32_at(bytes, 4);
    let seq = u32_at(bytes, 8);
    let high = u32_at(bytes, 12);
    let mask = mask_in(bytes);
    let entries = demands::entries_of(bytes);
    into.version = version;
    into.reset = false;
    into.src = src;
    into.epoch = epoch;
    into.seq = seq;
    into.high = high;
    into.mask = mask;
    demands::read(entries, &mut into.demands);
    Ok(())
}

/// Tries the refusals of a request in their order.
#[tactic(auto, using(std::proofs::lemmas::Bool::Decides::nat_tests), unfolding(crate::specs::Refusals::first_refusal))]
fn check_request(bytes: &[u8], endpoints: u16) -> Result<(), FrameRefused>
    requires { 1 ≤ length bytes.now }
    ensures { result_err result ≡ first_refusal (refuses_request endpoints bytes.now) }
{
    let header = demands::header(bytes[0]);
    if bytes.len() < header {
        return Err(FrameRefused::Short);
    }
    let end = header + 6 * demands::count(bytes) as usize;
    if bytes.len() < end {
        return Err(FrameRefused::Short);
    }
    check_destinations(bytes, endpoints)?;
    check_demands(bytes)?;
    check_fields(bytes, end)
}

/// Tries the refusals that look at the endpoints of a request: which, how many, and in which order.
#[tactic(auto, using(std::proofs::lemmas::Bool::Decides::nat_tests))]
fn check_destinations(bytes: &[u8], endpoints: u16) -> Result<(), FrameRefused>
    requires { request_length bytes.now ≤ length bytes.now }
    ensures { result_err result ≡ find (refuses_request endpoints bytes.now) (FrameRefused.Endpoint ∷ FrameRefused.Count ∷ FrameRefused.Order ∷ []) }
{
    let entries = demands::entries_of(bytes);
    if u16_at(bytes, 2) >= endpoints || demands::has_stranger(entries, endpoints) {
        return Err(FrameRefused::Endpoint);
    }
    if demands::count(bytes) >= endpoints {
        return Err(FrameRefused::Count);
    }
    if !demands::rises(entries) {
        return Err(FrameRefused::Order);
    }
    Ok(())
}

/// Tries the refusals that look at each line of a request.
#[tactic(auto, using(std::proofs::lemmas::Bool::Decides::nat_tests))]
fn check_demands(bytes: &[u8]) -> Result<(), FrameRefused>
    requires { request_length bytes.now ≤ length bytes.now }
    ensures { (endpoints : ℕ) → result_err result ≡ find (refuses_request endpoints bytes.now) (FrameRefused.SelfFlow ∷ FrameRefused.TooMuch ∷ []) }
{
    let entries = demands::entries_of(bytes);
    if demands::has_destination(entries, u16_at(bytes, 2)) {
        return Err(FrameRefused::SelfFlow);
    }
    if demands::asks_too_much(entries) {
        return Err(FrameRefused::TooMuch);
    }
    Ok(())
}
