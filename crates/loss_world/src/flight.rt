//! A packet on its way.
ghost use Rattle.std.specs.Prelude.{◌≡◌, ◌≤◌, length};
ghost use Rattle.loss_world.specs.InTransit.{is_due};

use crate::NoMemory;
use crate::buffer::Buffer;
use crate::fate::Rounds;
use std::alloc::Global;
use std::marker::Model;

/// A packet that is still to arrive.
#[derive(Drop)]
pub(crate) struct Flight {
    pub(crate) rounds: Rounds,
    pub(crate) packet: Buffer,
}

impl Model for Flight {
    ghost use Rattle.loss_world.specs.InTransit.{InFlight};

    ghost Value = { InFlight };

    ghost view = { λ flight. record { rounds = flight.rounds; bytes = flight.packet } };
}

impl Flight {
    /// One that is nowhere.
    pub(crate) fn open(alloc: Global) -> Result<Flight, NoMemory> {
        let packet = Buffer::open(alloc)?;
        Ok(Flight {
            rounds: Rounds { next: 0, last: 0 },
            packet,
        })
    }

    /// Becomes the packet of these bytes that arrives in these rounds.
    pub(crate) fn fill(&mut self, rounds: Rounds, bytes: &[u8])
        requires { length bytes.now ≤ 2048 }
        ensures { self.new ≡ record { rounds = rounds; bytes = bytes.now } }
    {
        self.rounds = rounds;
        self.packet.fill(bytes);
    }

    /// Whether it is still to arrive in this round.
    pub(crate) fn is_due(&self, round: u64) -> bool
        ensures { result ≡ is_due round self.now }
    {
        self.rounds.next <= round && round <= self.rounds.last
    }
}
