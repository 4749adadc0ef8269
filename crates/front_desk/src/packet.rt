//! A packet on its way to the desk.
ghost use Rattle.std.specs.Prelude.{◌≡◌, IfOk};

use crate::NoMemory;
use std::alloc::Global;
use std::marker::Model;

/// The bytes of a packet, whatever they spell.
#[derive(Drop)]
pub struct Packet {
    bytes: Vec<u8>,
}

impl Model for Packet {
    ghost use Rattle.std.specs.Prelude.{ℕ, List};

    ghost Value = { List ℕ };

    ghost view = { λ packet. packet.bytes.items };
}

impl Packet {
    /// A packet of these bytes.
    pub fn of(alloc: Global, bytes: &[u8]) -> Result<Packet, NoMemory>
        ensures { IfOk result (λ packet. packet ≡ bytes.now) }
    {
        Ok(Packet {
            bytes: Vec::from_slice(alloc, bytes)?,
        })
    }

    pub(crate) fn bytes(&self) -> &[u8]
        ensures { result.now ≡ self.now }
    {
        self.bytes.as_slice()
    }
}
