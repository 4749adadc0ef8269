ghost use Rattle.std.specs.Prelude.{◌≡◌, ◌<◌, ◌≤◌, ◌+◌, ◌*◌, ◌^◌, ℕ, List, length, replicate, None, Bool, IfOk, ◌&&◌, ◌==◌, is_some, if◌then◌else◌};
ghost use Rattle.std.specs.Int.{bit_at};
ghost use Rattle.edge_colouring.specs.Holders.{holder, with_holder, is_free_holder, IsRackOf, IsLowest};

use no_memory::NoMemory;
use std::alloc::Global;
use std::marker::Model;

/// How many cores a rack has places for.
const CORES: usize = 64;

/// How many racks a side has at most.
const RACKS: usize = 64;

/// One side's racks: at each, which cores are free, as a mask, and which edge holds each of the others.
#[derive(Debug, Drop)]
pub(crate) struct Ports {
    // In the struct itself, since each edge reads and writes two of them.
    free: [u64; RACKS],
    // Of a core that is free, whatever edge held it last.
    holders: Vec<u16>,
}

impl Model for Ports {
    ghost use Rattle.std.specs.Prelude.{◌≡◌, ◌≤◌, ℕ, List, Option, length, vec_len};
    ghost use Rattle.edge_colouring.specs.Holders.{holders_shown};

    ghost Value = { List (Option ℕ) };

    ghost view = { λ p. holders_shown p.free p.holders.items };

    ghost invariant = { λ p. (length p.free ≡ 64) × (vec_len p.holders ≤ 4096) };
}

impl Ports {
    /// So many racks, at which every core is free.
    pub(crate) fn open(alloc: Global, racks: u16) -> Result<Ports, NoMemory>
        requires { racks ≤ 64 }
        ensures { IfOk result (λ ports. ports ≡ replicate (racks * 64) None) }
    {
        Ok(Ports {
            free: [u64::MAX; RACKS],
            holders: vec![in alloc; 0; racks as usize * CORES]?,
        })
    }

    /// Makes every core free.
    pub(crate) fn clear(&mut self)
        ensures { self.new ≡ replicate (length self.old) None }
    {
        self.free = [u64::MAX; RACKS];
    }

    /// The edge that holds the core at the rack.
    pub(crate) fn holder(&self, rack: u16, core: u16) -> Option<u16>
        requires rack { IsRackOf self.now rack }
        requires core { core < 64 }
        ensures { result ≡ holder self.now rack core }
    {
        if is_set(self.free[rack as usize], core) {
            return None;
        }
        Some(self.holders[place(rack, core)])
    }

    /// Writes who holds the core at the rack; None makes it free.
    pub(crate) fn put(&mut self, rack: u16, core: u16, edge: Option<u16>)
        requires rack { IsRackOf self.old rack }
        requires core { core < 64 }
        ensures { self.new ≡ with_holder self.old rack core edge }
    {
        let mask = self.free[rack as usize];
        self.free[rack as usize] = with_bit(mask, core, edge.is_none());
        self.holders[place(rack, core)] = edge.unwrap_or(0);
    }

    /// The lowest core that is free at the rack, or 64.
    pub(crate) fn lowest_free(&self, rack: u16) -> u16
        requires { IsRackOf self.now rack }
        ensures { IsLowest (is_free_holder self.now rack) result }
    {
        lowest(self.free[rack as usize])
    }

    /// The lowest core that is free at the rack and at one of the other side, or 64.
    pub(crate) fn lowest_common(&self, rack: u16, other: &Ports, other_rack: u16) -> u16
        requires rack { IsRackOf self.now rack }
        requires other_rack { IsRackOf other.now other_rack }
        ensures { IsLowest (λ core. is_free_holder self.now rack core && is_free_holder other.now other_rack core) result }
    {
        lowest(self.free[rack as usize] & other.free[other_rack as usize])
    }
}

fn place(rack: u16, core: u16) -> usize
    ensures { result ≡ rack * 64 + core }
{
    rack as usize * CORES + core as usize
}

fn is_set(mask: u64, at: u16) -> bool
    requires { at < 64 }
    ensures { result ≡ (bit_at mask at == 1) }
{
    (mask >> at) & 1 == 1
}

/// The place of the lowest bit that is 1, or 64.
fn lowest(mask: u64) -> u16
    ensures { IsLowest (λ core. bit_at mask core == 1) result }
{
    mask.trailing_zeros() as u16
}

/// The mask with this bit.
fn with_bit(mask: u64, at: u16, bit: bool) -> u64
    requires { at < 64 }
    ensures { (i : ℕ) → i < 64 → bit_at result i ≡ (if i == at then (if bit then 1 else 0) else bit_at mask i) }
{
    if bit {
        mask | (1 << at)
    } else {
        mask & !(1 << at)
    }
}
