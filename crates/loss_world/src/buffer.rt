//! The memory of one packet.
ghost use Rattle.std.specs.Prelude.{◌≡◌, ◌≤◌, ◌++◌, length, drop};

use crate::NoMemory;
use std::alloc::Global;
use std::marker::Model;

/// The bytes of a packet, at most 2,048, in a piece of memory of that size.
#[derive(Drop)]
pub(crate) struct Buffer {
    space: Box<[u8; 2048]>,
    length: usize,
}

impl Model for Buffer {
    ghost use Rattle.std.specs.Prelude.{List, ℕ, ◌≤◌, take};

    ghost Value = { List ℕ };

    ghost view = { λ buffer. take buffer.length buffer.space.value };

    ghost invariant = { λ buffer. buffer.length ≤ 2048 };
}

impl Buffer {
    pub(crate) fn open(alloc: Global) -> Result<Buffer, NoMemory> {
        let space = Box::new(alloc, [0; 2048])?;
        Ok(Buffer { space, length: 0 })
    }

    /// Puts these bytes in the place of those that it holds.
    pub(crate) fn fill(&mut self, bytes: &[u8])
        requires { length bytes.now ≤ 2048 }
        ensures { self.new ≡ bytes.now }
    {
        self.length = bytes.len();
        copy_to_front(&mut self.space, bytes);
    }

    /// Copies its bytes to the front of `buf`, and answers how many they are.
    pub(crate) fn copy_to(&self, buf: &mut [u8; 2048]) -> usize
        ensures length { result ≡ length self.now }
        ensures within { result ≤ 2048 }
        ensures copied { buf.new ≡ self.now ++ drop result buf.old }
    {
        copy_to_front(buf, &self.space[..self.length]);
        self.length
    }
}

fn copy_to_front(space: &mut [u8; 2048], bytes: &[u8])
    requires { length bytes.now ≤ 2048 }
    ensures { space.new ≡ bytes.now ++ drop (length bytes.now) space.old }
{
    space[..bytes.len()].copy_from_slice(bytes);
}
