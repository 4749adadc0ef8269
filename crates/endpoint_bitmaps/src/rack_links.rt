ghost use Rattle.std.specs.Prelude.{◌≡◌, ◌<◌, ◌≤◌, ◌-◌, ◌*◌, ◌^◌, ◌==◌, ◌++◌, ℕ, IfOk, vec_len, true, length, drop, replicate};
ghost use Rattle.std.specs.List.{slice_index_or};
ghost use Rattle.endpoint_bitmaps.specs.Slots.{has_slot};
ghost use Rattle.endpoint_bitmaps.specs.Links.{taken_in, HasTakenLinks, ShowsLeft, IsUsed};

use no_memory::NoMemory;
use std::alloc::Global;

/// The links of one direction between racks and cores, in each slot of a batch: how many a rack has taken, rack after rack
/// and 64 slots each, and as bits in which slots it has one left. Only racks below `used` have taken any.
#[derive(Debug, Drop)]
pub(crate) struct RackLinks {
    pub(crate) taken: Vec<u8>,
    pub(crate) left: Vec<u64>,
    pub(crate) used: usize,
}

impl RackLinks {
    /// Links of so many racks, each of which has 64 in each slot, with none taken.
    pub(crate) fn open(alloc: Global, racks: u16) -> Result<RackLinks, NoMemory>
        ensures racks { IfOk result (λ links. vec_len links.left ≡ racks) }
        ensures left { IfOk result (λ links. ShowsLeft 64 links.taken.items links.left.items) }
        ensures used { IfOk result (λ links. IsUsed links.used links.taken.items) }
    {
        Ok(RackLinks {
            taken: vec![in alloc; 0; racks as usize * 64]?,
            left: vec![in alloc; u64::MAX; racks as usize]?,
            used: 0,
        })
    }

    /// Lets every rack have this many links in each slot, with none taken.
    pub(crate) fn clear(&mut self, cores: u16)
        requires some { 1 ≤ cores }
        requires count { (before : ℕ) × (1 ≤ before) × ShowsLeft before self.old.taken.items self.old.left.items }
        requires used { IsUsed self.old.used self.old.taken.items }
        ensures racks { vec_len self.new.left ≡ vec_len self.old.left }
        ensures none { (rack slot : ℕ) → taken_in self.new.taken.items rack slot ≡ 0 }
        ensures left { ShowsLeft cores self.new.taken.items self.new.left.items }
        ensures used { IsUsed self.new.used self.new.taken.items }
    {
        clear_used(&mut self.taken, self.used);
        free_used(&mut self.left, self.used);
        self.used = 0;
    }

    /// Lets the rack be one of those that have taken links.
    pub(crate) fn use_rack(&mut self, rack: u16)
        requires rack { rack < vec_len self.old.left }
        requires count { length self.old.taken.items ≡ vec_len self.old.left * 64 }
        requires used { IsUsed self.old.used self.old.taken.items }
        ensures below { rack < self.new.used }
        ensures used { IsUsed self.new.used self.new.taken.items }
        ensures taken { self.new.taken ≡ self.old.taken }
        ensures left { self.new.left ≡ self.old.left }
    {
        self.used = self.used.max(rack as usize + 1);
    }

    /// Takes one of the rack's `cores` links in the slot, in which it has one left.
    pub(crate) fn take_one(&mut self, rack: u16, slot: u32, cores: u16)
        requires cores { cores ≤ 64 }
        requires rack { rack < vec_len self.old.left }
        requires slot { slot < 64 }
        requires shows { ShowsLeft cores self.old.taken.items self.old.left.items }
        requires left { has_slot (slice_index_or self.old.left.items rack 0) slot ≡ true }
        requires used { (rack < self.old.used) × IsUsed self.old.used self.old.taken.items }
        ensures racks { vec_len self.new.left ≡ vec_len self.old.left }
        ensures taken { HasTakenLinks rack (λ at. at == slot) self.old.taken.items self.new.taken.items }
        ensures shows { ShowsLeft cores self.new.taken.items self.new.left.items }
        ensures used { (self.new.used ≡ self.old.used) × IsUsed self.new.used self.new.taken.items }
    {
        let taken = &mut self.taken[rack as usize * 64 + slot as usize];
        *taken += 1;
        if u16::from(*taken) == cores {
            self.left[rack as usize] &= !(1 << slot);
        }
    }
}

/// Sets the counts to 0, where only those of racks below `used` are not.
fn clear_used(counts: &mut [u8], used: usize)
    requires { IsUsed used counts.old }
    ensures { counts.new ≡ replicate (length counts.old) 0 }
{
    counts[..used * 64].fill(0);
}

/// Lets the racks below `used` have a link left in every slot.
fn free_used(words: &mut [u64], used: usize)
    requires { used ≤ length words.old }
    ensures { words.new ≡ replicate used (2 ^ 64 - 1) ++ drop used words.old }
{
    words[..used].fill(u64::MAX);
}
