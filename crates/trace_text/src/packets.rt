// Packets that rows write in hexadecimal, kept one behind the other.
ghost use Rattle.std.specs.Prelude.{◌≡◌, ◌<◌, ◌≤◌, ◌+◌, ◌*◌, ◌/◌, ◌^◌, ◌++◌, ◌∷◌, [], ℕ, true, length, filter, All, OnOk};
ghost use Rattle.std.specs.List.Sorted.{IsNonDecreasingBy};
ghost use Rattle.trace_text.specs.Ranks.{AreStarts};
ghost use Rattle.trace_text.specs.Events.{packet_rank, is_packet_of, packet_of, packet_from, packet_start, IsWithin};
ghost use Rattle.trace_text.specs.Fields.{is_hex, bytes_of};

use crate::order::{Ranked, of_round};
use no_memory::NoMemory;

/// The low part of a place has so many values.
const LOW_PLACES: usize = 1 << 32;

/// A packet that is kept under a number, as its round or its endpoint: so many bytes from a place on among the bytes of all. The
/// place is kept in two parts, so that a packet takes 12 bytes.
#[derive(Clone, Copy, Debug, PartialEq, Eq)]
pub struct KeptPacket {
    pub key: u32,
    pub low: u32,
    pub high: u16,
    pub size: u16,
}

impl KeptPacket {
    /// A packet under this number, and of so many bytes from this place on.
    fn new(key: u32, start: usize, size: u16) -> KeptPacket
        requires { start < 2 ^ 48 }
        ensures { result ≡ packet_from key start size }
    {
        KeptPacket {
            key,
            low: (start % LOW_PLACES) as u32,
            high: (start / LOW_PLACES) as u16,
            size,
        }
    }

    /// Where its bytes begin.
    fn start(&self) -> usize
        ensures { result ≡ packet_start self.now }
    {
        usize::from(self.high) * LOW_PLACES + self.low as usize
    }
}

impl Ranked for KeptPacket {
    ghost use Rattle.trace_text.specs.Events.{packet_rank};

    ghost rank_of = { packet_rank };

    fn rank(&self) -> u64 {
        u64::from(self.key)
    }
}

/// The packets under a number, of which it is known where each number's begin.
pub fn packets_of<'a>(packets: &'a [KeptPacket], starts: &[usize], key: u32) -> &'a [KeptPacket]
    requires sorted { IsNonDecreasingBy packet_rank packets.now }
    requires starts { (keys : ℕ) × AreStarts packet_rank 1 keys packets.now starts.now × (key < keys) }
    ensures packets { result.now ≡ filter (is_packet_of key) packets.now }
    ensures few { length result.now ≤ length packets.now }
{
    of_round(packets, starts, key)
}

/// The bytes of a packet, of those of all.
pub fn packet_of<'a>(bytes: &'a [u8], packet: &KeptPacket) -> &'a [u8]
    requires { IsWithin (length bytes.now) packet.now }
    ensures { result.now ≡ packet_of bytes.now packet.now }
{
    let start = packet.start();
    &bytes[start..start + usize::from(packet.size)]
}

/// Whatever the bytes are, each is below 256.
pub fn bytes_are_below_256(bytes: &[u8])
    ensures { All (λ byte. byte < 256) bytes.now }
{
    let _ = bytes;
}

/// Keeps one packet more under a number, which a text writes in hexadecimal.
pub fn push_packet(
    packets: &mut Vec<KeptPacket>,
    bytes: &mut Vec<u8>,
    key: u32,
    text: &[u8],
) -> Result<(), NoMemory>
    requires hex { is_hex text.now ≡ true }
    requires short { length text.now ≤ 4096 }
    requires room { length bytes.old.items < 2 ^ 48 }
    ensures packets { OnOk result (packets.new.items ≡ packets.old.items ++ packet_from key (length bytes.old.items) (length (bytes_of text.now)) ∷ []) }
    ensures bytes { OnOk result (bytes.new.items ≡ bytes.old.items ++ bytes_of text.now) }
{
    let size = (text.len() / 2) as u16;
    packets.push(KeptPacket::new(key, bytes.len(), size))?;
    append(bytes, text)
}

// Appends the bytes that a text writes.
fn append(bytes: &mut Vec<u8>, text: &[u8]) -> Result<(), NoMemory>
    requires { is_hex text.now ≡ true }
    ensures { OnOk result (bytes.new.items ≡ bytes.old.items ++ bytes_of text.now) }
{
    let start = bytes.len();
    bytes.resize(start + text.len() / 2, 0)?;
    let (_, rest) = bytes.split_at_mut(start);
    decode(text, rest);
    Ok(())
}

// Fills the slice with the bytes that a text of its size writes.
fn decode(text: &[u8], out: &mut [u8])
    requires hex { is_hex text.now ≡ true }
    requires size { length out.old ≡ length text.now / 2 }
    ensures { out.new ≡ bytes_of text.now }
{
    let _decoded = hex::decode_to_slice(text, out);
}
