//! Whether a line can stand where it stands.
ghost use Rattle.std.specs.Prelude.{◌≡◌, List, [], ◌∷◌, IfOk, true, not};
ghost use Rattle.schedule_audit.specs.declared.recorded.Recorded.{Recorded};
ghost use Rattle.schedule_audit.specs.Misplaced.{is_bad_record};
ghost use Rattle.schedule_audit.specs.Standing.{SumsStand};

use crate::recorded::{Recorded, clears_none, has_wrong_ends, is_above, says_nothing, sum_with};
use crate::sums::FlowSums;
use no_memory::NoMemory;
use std::alloc::Global;

/// The most that a flow's entries add since its last clear: 200,000,000 for what is asked for, and one for each of the 64
/// slots of each of 100,000 rounds.
const MOST_ADDED: u64 = 206_400_000;

/// What is kept of the records so far, to judge the next one by.
#[derive(Drop)]
pub(crate) struct Standing {
    last: Option<Recorded>,
    sums: FlowSums,
}

impl Standing {
    /// No record so far.
    pub(crate) fn open(alloc: Global, endpoints: u16) -> Result<Standing, NoMemory>
        ensures none { IfOk result (λ standing. SumsStand standing.last standing.sums []) }
        ensures endpoints { IfOk result (λ standing. standing.sums.endpoints ≡ endpoints) }
    {
        Ok(Standing {
            last: None,
            sums: FlowSums::open(alloc, endpoints)?,
        })
    }

    /// Takes a record. False where it cannot stand after those so far, and then nothing is taken.
    pub(crate) fn take(&mut self, next: Recorded) -> bool
        ensures good { (earlier : List Recorded) → SumsStand self.old.last self.old.sums earlier → result ≡ not (is_bad_record self.old.sums.endpoints earlier next) }
        ensures taken { (earlier : List Recorded) → SumsStand self.old.last self.old.sums earlier → result ≡ true → SumsStand self.new.last self.new.sums (next ∷ earlier) }
        ensures endpoints { self.new.sums.endpoints ≡ self.old.sums.endpoints }
    {
        if !is_above(self.last, next)
            || has_wrong_ends(self.sums.endpoints(), next.flow)
            || says_nothing(next)
        {
            return false;
        }
        let before = self.sums.get(next.flow.src, next.flow.dst);
        if clears_none(before, next) {
            return false;
        }
        let sum = sum_with(before, next);
        if sum > MOST_ADDED {
            return false;
        }
        self.sums.set(next.flow.src, next.flow.dst, sum as u32);
        self.last = Some(next);
        true
    }
}
