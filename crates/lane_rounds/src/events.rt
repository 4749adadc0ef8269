//! What comes to an endpoint from outside in one round, and what of it is refused.
ghost use Rattle.std.specs.Prelude.{◌≡◌, ◌<◌, ℕ, List, [], ◌∷◌, ◌++◌, length, OnOk, OnErr, Some, slice_get};
ghost use Rattle.lane_rounds.specs.Raw.{Raw};

use crate::NoMemory;
use loss_world::Fate;
use std::alloc::Global;
use std::marker::Model;

/// What comes to an endpoint from outside in one round. The version is that of the boots, and is read only where there are some.
#[derive(Drop)]
pub struct Events {
    pub boots: u32,
    pub version: u8,
    pub asks: AskList,
    /// The fate of the upward packet, and that of the downward one.
    pub up: Option<Fate>,
    pub down: Option<Fate>,
    pub raw: RawList,
}

/// Asks of one round: destinations, each with so many slots.
#[derive(Drop)]
pub struct AskList {
    asks: Vec<(u16, u32)>,
}

impl Model for AskList {
    ghost use Rattle.std.specs.Prelude.{ℕ, List};

    ghost Value = { List (ℕ × ℕ) };

    ghost view = { λ list. list.asks.items };
}

impl AskList {
    pub fn new(alloc: Global) -> AskList
        ensures { result ≡ [] }
    {
        AskList {
            asks: Vec::new(alloc),
        }
    }

    pub fn push(&mut self, dst: u16, n: u32) -> Result<(), NoMemory>
        ensures ok { OnOk result (self.new ≡ self.old ++ (dst, n) ∷ []) }
        ensures err { OnErr result (self.new ≡ self.old) }
    {
        self.asks.push((dst, n))?;
        Ok(())
    }

    /// Empties it, and keeps its memory.
    pub fn clear(&mut self)
        ensures { self.new ≡ [] }
    {
        self.asks.clear();
    }

    pub(crate) fn as_slice(&self) -> &[(u16, u32)]
        ensures { result.now ≡ self.now }
    {
        &self.asks
    }
}

/// Bytes that come to the arbiter from outside, with their place among those of the round.
#[derive(Drop)]
pub(crate) struct RawPacket {
    place: u32,
    bytes: Vec<u8>,
}

impl Model for RawPacket {
    ghost use Rattle.lane_rounds.specs.Raw.{Raw};

    ghost Value = { Raw };

    ghost view = { λ raw. record { place = raw.place; bytes = raw.bytes.items } };
}

impl RawPacket {
    pub(crate) fn place(&self) -> u32
        ensures { result ≡ self.now.place }
    {
        self.place
    }

    pub(crate) fn bytes(&self) -> &[u8]
        ensures { result.now ≡ self.now.bytes }
    {
        &self.bytes
    }
}

/// Raw packets of one round, in the order in which they are pushed.
#[derive(Drop)]
pub struct RawList {
    packets: Vec<RawPacket>,
}

impl Model for RawList {
    ghost use Rattle.std.specs.Prelude.{List};
    ghost use Rattle.lane_rounds.specs.Raw.{Raw};

    ghost Value = { List Raw };

    ghost view = { λ list. list.packets.items };
}

impl RawList {
    pub fn new(alloc: Global) -> RawList
        ensures { result ≡ [] }
    {
        RawList {
            packets: Vec::new(alloc),
        }
    }

    /// Appends a copy of the bytes, with their place among those of the round. Where places rise, refusals are told rising.
    pub fn push(&mut self, place: u32, bytes: &[u8]) -> Result<(), NoMemory>
        ensures ok { OnOk result (self.new ≡ self.old ++ record { place = place; bytes = bytes.now } ∷ []) }
        ensures err { OnErr result (self.new ≡ self.old) }
    {
        let mut copy = Vec::with_capacity(*self.packets.allocator(), bytes.len())?;
        copy.extend_from_slice(bytes)?;
        self.packets.push(RawPacket { place, bytes: copy })?;
        Ok(())
    }

    /// Empties it.
    pub fn clear(&mut self)
        ensures { self.new ≡ [] }
    {
        self.packets.clear();
    }

    pub(crate) fn as_slice(&self) -> &[RawPacket]
        ensures { result.now ≡ self.now }
    {
        &self.packets
    }
}

/// The raw packets that were refused, in the order in which they came: their places, each with the number of its refusal.
#[derive(Drop)]
pub struct RefusedList {
    refused: Vec<(u32, u8)>,
}

impl Model for RefusedList {
    ghost use Rattle.std.specs.Prelude.{ℕ, List};

    ghost Value = { List (ℕ × ℕ) };

    ghost view = { λ list. list.refused.items };
}

impl RefusedList {
    pub fn new(alloc: Global) -> RefusedList
        ensures { result ≡ [] }
    {
        RefusedList {
            refused: Vec::new(alloc),
        }
    }

    pub fn len(&self) -> usize
        ensures { result ≡ length self.now }
    {
        self.refused.len()
    }

    /// The place of a refused packet, and the number of its refusal.
    pub fn get(&self, at: usize) -> (u32, u8)
        requires { at < length self.now }
        ensures { slice_get self.now at ≡ Some result }
    {
        self.refused[at]
    }

    /// Empties it, and keeps its memory.
    pub fn clear(&mut self)
        ensures { self.new ≡ [] }
    {
        self.refused.clear();
    }

    pub(crate) fn push(&mut self, place: u32, number: u8) -> Result<(), NoMemory>
        ensures ok { OnOk result (self.new ≡ self.old ++ (place, number) ∷ []) }
        ensures err { OnErr result (self.new ≡ self.old) }
    {
        self.refused.push((place, number))?;
        Ok(())
    }
}
