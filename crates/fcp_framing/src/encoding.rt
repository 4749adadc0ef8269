//! Packets written as bytes.

ghost use Rattle.std.specs.Prelude.{◌≡◌, ℕ, ◌+◌, ◌*◌, ◌^◌, ◌<◌, ◌≤◌, [], ◌∷◌, ◌++◌, length, take, drop};
ghost use Rattle.std.specs.Int.{w16, w32, w64, w128, to_be_bytes};
ghost use Rattle.std.specs.List.{flat_map};
ghost use Rattle.fcp_framing.specs.Versions.{IsVersion, mask_bits, mask_width};
ghost use Rattle.fcp_framing.specs.Spelling.{IsReset, IsRequest, IsAllocation, SpellsUp, SpellsDown, reset_of, up_bytes, down_bytes, demand_bytes, told_bytes};
ghost use Rattle.fcp_framing.specs.Writing.{with_bytes};

use crate::fields::{ALLOCATION, MASK, REQUEST, RESET, RESET_LENGTH, mask_end};
use crate::packet::{Demand, Down, Told, Up};
use byteorder::{BigEndian, ByteOrder};

/// Writes a reset of endpoint `src`, and answers its length. The rest of the buffer stays.
pub fn encode_reset(version: u8, src: u16, epoch: u32, buf: &mut [u8; 2048]) -> usize
    requires version { IsVersion version }
    requires endpoint { src < 256 }
    requires epoch { 0 < epoch }
    ensures bytes { take result buf.new ≡ up_bytes (reset_of version src epoch) }
    ensures spelled { (endpoints : ℕ) → IsReset endpoints (reset_of version src epoch) → SpellsUp endpoints (take result buf.new) (reset_of version src epoch) }
    ensures length { result ≡ 8 }
    ensures rest { drop result buf.new ≡ drop result buf.old }
{
    put_head(buf, version, RESET, src, epoch);
    RESET_LENGTH
}

/// Writes a request in its version, and answers its length. The rest of the buffer stays.
pub fn encode_req(packet: &Up, buf: &mut [u8; 2048]) -> usize
    // It keeps every rule, in some network.
    requires { (endpoints : ℕ) × IsRequest endpoints packet.now }
    ensures bytes { take result buf.new ≡ up_bytes packet.now }
    ensures spelled { (endpoints : ℕ) → IsRequest endpoints packet.now → SpellsUp endpoints (take result buf.new) packet.now }
    ensures length { result ≡ length (up_bytes packet.now) }
    ensures room { result ≤ 2048 }
    ensures rest { drop result buf.new ≡ drop result buf.old }
{
    put_head(buf, packet.version, REQUEST, packet.src, packet.epoch);
    put_window(buf, packet.version, packet.seq, packet.high, packet.mask);
    let end = mask_end(packet.version);
    let demands = packet.demands.as_slice();
    put_u16(buf, end, demands.len() as u16);
    put_demands(buf, end + 2, demands)
}

/// Writes an allocation in its version, and answers its length. The rest of the buffer stays.
pub fn encode_alloc(packet: &Down, buf: &mut [u8; 2048]) -> usize
    // It keeps every rule, in some network and for some size of a batch.
    requires { (endpoints slots : ℕ) × IsAllocation endpoints slots packet.now }
    ensures bytes { take result buf.new ≡ down_bytes packet.now }
    ensures spelled { (endpoints slots : ℕ) → IsAllocation endpoints slots packet.now → SpellsDown endpoints slots (take result buf.new) packet.now }
    ensures length { result ≡ length (down_bytes packet.now) }
    ensures room { result ≤ 2048 }
    ensures rest { drop result buf.new ≡ drop result buf.old }
{
    let batch = packet.batch;
    put_head(buf, packet.version, ALLOCATION, packet.dst, packet.epoch);
    put_window(buf, packet.version, packet.seq, packet.high, packet.mask);
    let end = mask_end(packet.version);
    put_u32(buf, end, batch);
    let told = packet.told.as_slice();
    put_u16(buf, end + 4, told.len() as u16);
    put_told(buf, end + 6, told)
}

/// What all packets begin with.
fn put_head(buf: &mut [u8; 2048], version: u8, kind: u8, endpoint: u16, epoch: u32)
    ensures { buf.new ≡ with_bytes 0 (version ∷ kind ∷ to_be_bytes w16 endpoint ++ to_be_bytes w32 epoch) buf.old }
{
    put_u8(buf, 0, version);
    put_u8(buf, 1, kind);
    put_u16(buf, 2, endpoint);
    put_u32(buf, 4, epoch);
}

/// The number of a packet, and what it acknowledges.
fn put_window(buf: &mut [u8; 2048], version: u8, seq: u32, high: u32, mask: u128)
    requires { mask < 2 ^ mask_bits version }
    ensures { buf.new ≡ with_bytes 8 (to_be_bytes w32 seq ++ to_be_bytes w32 high ++ to_be_bytes (mask_width version) mask) buf.old }
{
    put_u32(buf, 8, seq);
    put_u32(buf, 12, high);
    put_mask(buf, version, mask);
}

/// A mask, as wide as its version has it.
#[tactic(auto, unfolding(crate::specs::Versions::mask_width))]
fn put_mask(buf: &mut [u8; 2048], version: u8, mask: u128)
    requires { mask < 2 ^ mask_bits version }
    ensures { buf.new ≡ with_bytes 16 (to_be_bytes (mask_width version) mask) buf.old }
{
    if version == 2 {
        put_u128(buf, MASK, mask);
    } else {
        put_u64(buf, MASK, mask as u64);
    }
}

/// The list of a request, from `start` on. Answers where it ends.
fn put_demands(buf: &mut [u8; 2048], start: usize, demands: &[Demand]) -> usize
    requires { start + 6 * length demands.now ≤ 2048 }
    ensures list { buf.new ≡ with_bytes start (flat_map demand_bytes demands.now) buf.old }
    ensures end { result ≡ start + 6 * length demands.now }
{
    let mut end = start;
    for demand in demands {
        put_u16(buf, end, demand.dst);
        put_u32(buf, end + 2, demand.total);
        end += 6;
    }
    end
}

/// The list of an allocation, from `start` on. Answers where it ends.
fn put_told(buf: &mut [u8; 2048], start: usize, told: &[Told]) -> usize
    requires { start + 4 * length told.now ≤ 2048 }
    ensures list { buf.new ≡ with_bytes start (flat_map told_bytes told.now) buf.old }
    ensures end { result ≡ start + 4 * length told.now }
{
    let mut end = start;
    for slot in told {
        put_u8(buf, end, slot.offset);
        put_u8(buf, end + 1, slot.core);
        put_u16(buf, end + 2, slot.dst);
        end += 4;
    }
    end
}

fn put_u8(buf: &mut [u8; 2048], at: usize, n: u8)
    requires { at + 1 ≤ 2048 }
    ensures { buf.new ≡ with_bytes at (n ∷ []) buf.old }
{
    buf[at] = n;
}

fn put_u16(buf: &mut [u8; 2048], at: usize, n: u16)
    requires { at + 2 ≤ 2048 }
    ensures { buf.new ≡ with_bytes at (to_be_bytes w16 n) buf.old }
{
    BigEndian::write_u16(&mut buf[at..], n);
}

fn put_u32(buf: &mut [u8; 2048], at: usize, n: u32)
    requires { at + 4 ≤ 2048 }
    ensures { buf.new ≡ with_bytes at (to_be_bytes w32 n) buf.old }
{
    BigEndian::write_u32(&mut buf[at..], n);
}

fn put_u64(buf: &mut [u8; 2048], at: usize, n: u64)
    requires { at + 8 ≤ 2048 }
    ensures { buf.new ≡ with_bytes at (to_be_bytes w64 n) buf.old }
{
    BigEndian::write_u64(&mut buf[at..], n);
}

fn put_u128(buf: &mut [u8; 2048], at: usize, n: u128)
    requires { at + 16 ≤ 2048 }
    ensures { buf.new ≡ with_bytes at (to_be_bytes w128 n) buf.old }
{
    BigEndian::write_u128(&mut buf[at..], n);
}
