// What happens in a trace beside its asks: fates of packets, boots, and raw packets.
ghost use Rattle.std.specs.Prelude.{◌≡◌, ◌<◌, ◌≤◌, ◌+◌, ◌*◌, ◌^◌, ◌++◌, ◌∷◌, [], true, length, OnOk};
ghost use Rattle.trace_text.specs.Events.{way_number, packet_from};
ghost use Rattle.trace_text.specs.Fields.{is_hex, bytes_of};

use crate::order::Ranked;
use crate::packets::{KeptPacket, push_packet};
use loss_world::Fate;
use no_memory::NoMemory;
use std::alloc::Global;

/// What befalls the packet of an endpoint in a round, on its way up to the arbiter or down from it.
#[derive(Clone, Copy, Debug, PartialEq, Eq)]
pub struct GivenFate {
    pub round: u32,
    pub endpoint: u16,
    pub up: bool,
    pub fate: Fate,
}

/// A boot of an endpoint in a round, and the version of the protocol that it speaks from then on.
#[derive(Clone, Copy, Debug, PartialEq, Eq)]
pub struct Boot {
    pub round: u32,
    pub endpoint: u16,
    pub version: u8,
}

impl Ranked for GivenFate {
    ghost use Rattle.trace_text.specs.Events.{fate_rank};

    ghost rank_of = { fate_rank };

    fn rank(&self) -> u64 {
        fate_rank(self.round, self.endpoint, self.up)
    }
}

impl Ranked for Boot {
    ghost use Rattle.trace_text.specs.Events.{boot_rank};

    ghost rank_of = { boot_rank };

    fn rank(&self) -> u64 {
        boot_rank(self.round, self.endpoint)
    }
}

/// Where a fate stands among others: by round, then endpoint, then way.
pub fn fate_rank(round: u32, endpoint: u16, up: bool) -> u64
    ensures { result ≡ (round * 256 + endpoint) * 2 + way_number up }
{
    (u64::from(round) * 256 + u64::from(endpoint)) * 2 + u64::from(up)
}

/// Where a boot stands among others: by round, then endpoint.
pub fn boot_rank(round: u32, endpoint: u16) -> u64
    ensures { result ≡ round * 256 + endpoint }
{
    u64::from(round) * 256 + u64::from(endpoint)
}

/// The events of the rows so far, in the order of rows.
#[derive(Drop)]
pub struct EventRows {
    pub fates: Vec<GivenFate>,
    pub boots: Vec<Boot>,
    pub raws: Vec<KeptPacket>,
    // The bytes of all raw packets.
    pub bytes: Vec<u8>,
}

impl EventRows {
    pub fn new(alloc: Global) -> EventRows
        ensures fates { result.fates.items ≡ [] }
        ensures boots { result.boots.items ≡ [] }
        ensures raws { result.raws.items ≡ [] }
        ensures bytes { result.bytes.items ≡ [] }
    {
        EventRows {
            fates: Vec::new(alloc),
            boots: Vec::new(alloc),
            raws: Vec::new(alloc),
            bytes: Vec::new(alloc),
        }
    }

    /// One raw packet more, in hexadecimal.
    pub fn push_raw(&mut self, round: u32, packet: &[u8]) -> Result<(), NoMemory>
        requires hex { is_hex packet.now ≡ true }
        requires short { length packet.now ≤ 4096 }
        requires room { length self.old.bytes.items < 2 ^ 48 }
        ensures fates { self.new.fates ≡ self.old.fates }
        ensures boots { self.new.boots ≡ self.old.boots }
        ensures raws { OnOk result (self.new.raws.items ≡ self.old.raws.items ++ packet_from round (length self.old.bytes.items) (length (bytes_of packet.now)) ∷ []) }
        ensures bytes { OnOk result (self.new.bytes.items ≡ self.old.bytes.items ++ bytes_of packet.now) }
    {
        push_packet(&mut self.raws, &mut self.bytes, round, packet)
    }
}
