//! The slots that wait.
ghost use Rattle.std.specs.Prelude.{◌≡◌, ◌≤◌, [], ◌∷◌, length, take};

use fcp_framing::Told;
use std::marker::Model;

/// The slots of one batch that wait, at most 64. Clauses see them. What lies behind them is not read before it is written anew.
#[derive(Drop)]
pub(crate) struct Waiting {
    count: u8,
    slots: [Told; 64],
}

impl Model for Waiting {
    ghost use Rattle.std.specs.Prelude.{◌≤◌, List, take};
    ghost use Rattle.fcp_framing.specs.declared.packet.Told.{Told as ToldSlot};

    ghost Value = { List ToldSlot };

    ghost view = { λ waiting. take waiting.count waiting.slots };

    ghost invariant = { λ waiting. waiting.count ≤ 64 };
}

impl Waiting {
    /// A place in which no slot waits.
    pub(crate) fn new() -> Waiting
        ensures { result ≡ [] }
    {
        Waiting {
            count: 0,
            slots: [Told::default(); 64],
        }
    }

    /// Puts these slots in place of those that wait.
    pub(crate) fn put(&mut self, told: &[Told])
        requires { length told.now ≤ 64 }
        ensures { self.new ≡ told.now }
    {
        self.count = told.len() as u8;
        write_front(&mut self.slots, told);
    }

    pub(crate) fn clear(&mut self)
        ensures { self.new ≡ [] }
    {
        self.count = 0;
    }

    pub(crate) fn as_slice(&self) -> &[Told]
        ensures slots { result.now ≡ self.now }
        ensures fits { length result.now ≤ 64 }
    {
        &self.slots[..self.count as usize]
    }
}

/// Writes these slots over the first of a row.
fn write_front(row: &mut [Told; 64], told: &[Told])
    requires { length told.now ≤ 64 }
    ensures { take (length told.now) row.new ≡ told.now }
{
    row[..told.len()].copy_from_slice(told);
}

/// Three places in which no slots wait.
pub(crate) fn open_places() -> [Waiting; 3]
    ensures { result ≡ [] ∷ [] ∷ [] ∷ [] }
{
    [Waiting::new(), Waiting::new(), Waiting::new()]
}
