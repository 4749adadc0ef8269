ghost use Rattle.std.specs.Prelude.{◌≡◌, ◌<◌, ◌≤◌, ◌*◌, ℕ, List, [], length, IfOk};
ghost use Rattle.greedy_rules.specs.Batches.{DemandBatch};
ghost use Rattle.clos_topology.specs.Network.{Network};
ghost use Rattle.window_allocation.specs.Needs.{Needs};
ghost use Rattle.window_allocation.specs.Standing.{HasAllocated};
ghost use Rattle.window_allocation.specs.Giving.{MayGive, IsOpenForBatches, HasGiven};

use crate::laws::every_window_is_ready;
use crate::needs::write_needs;
use crate::runs::WindowRing;
use crate::window::{Span, Window};
use crate::window_list::WindowList;
use clos_topology::Net;
use fp_edge::Gate;
use greedy_rules::{Batch, recorded_batches_may_be_applied};
use no_memory::NoMemory;
use path_workers::Paths;
use std::alloc::Global;
use std::marker::Model;
use std::sync::Wait;
use std::thread::Threads;

/// Gives the batches of a net their slots and cores, window after window.
#[derive(Drop)]
pub struct Allocation {
    alloc: Global,
    b: u8,
    endpoints: u16,
    // How many batches are done.
    batches: u32,
    list: WindowList,
    ring: WindowRing,
    paths: Paths,
}

impl Model for Allocation {
    ghost use Rattle.std.specs.Prelude.{◌≡◌};
    ghost use Rattle.window_allocation.specs.Standing.{Allocated};
    ghost use Rattle.window_allocation.specs.WindowLists.{demands_of, IsWindowList};

    ghost Value = { Allocated };

    ghost view = { λ a. record { b = a.b; batches = a.batches; list = demands_of a.list; ring = a.ring; paths = a.paths } };

    ghost invariant = { λ a. (a.ring.endpoints ≡ a.endpoints) × IsWindowList a.endpoints a.list };
}

impl Allocation {
    /// Before the first batch, for windows of at most `g` batches of `b` slots.
    pub fn open(
        alloc: Global,
        net: &Net,
        workers: u16,
        paths: u16,
        b: u8,
        g: u8,
    ) -> Result<Allocation, NoMemory>
        requires workers { (0 < workers) × (workers ≤ 16) }
        requires paths { (0 < paths) × (paths ≤ 16) }
        requires b { (0 < b) × (b ≤ 64) }
        requires g { (0 < g) × (g ≤ 16) }
        ensures stands { IfOk result (HasAllocated net.now g []) }
        ensures b { IfOk result (λ half. half.b ≡ b) }
        ensures workers { IfOk result (λ half. half.ring.workers ≡ workers) }
        ensures paths { IfOk result (λ half. half.paths.paths ≡ paths) }
    {
        let endpoints = net.endpoints();
        Ok(Allocation {
            alloc,
            b,
            endpoints,
            batches: 0,
            list: WindowList::open(alloc, endpoints)?,
            ring: WindowRing::open(alloc, workers, endpoints, u16::from(g), b)?,
            paths: Paths::open(alloc, net, paths, u16::from(g) * u16::from(b))?,
        })
    }

    /// How many endpoints the net has.
    pub fn endpoints(&self) -> u16
        ensures { result ≡ self.now.ring.endpoints }
    {
        self.endpoints
    }

    /// A window for the next batches, whose slots and cores `fill` gives: a past one that is no longer needed, where its tables are
    /// for just their slots, else a new one. Giving them takes no memory but this.
    pub fn open_window(&self, past: Option<Window>, batches: &[Batch]) -> Result<Window, NoMemory>
        requires { MayGive self.now batches.now }
        ensures { IfOk result (IsOpenForBatches self.now batches.now) }
    {
        let slots = batches.len() as u16 * u16::from(self.b);
        match past {
            Some(window) if window.has_tables(slots, self.endpoints) => Ok(window),
            _ => Window::open(self.alloc, slots, self.endpoints),
        }
    }

    /// Gives the next batches their slots and cores, in a window that was opened for them. Where there are none, nothing is started,
    /// and the window has no slots.
    pub fn fill<R: Threads + Wait + Sync, G: Gate + Sync>(
        &mut self,
        rt: &R,
        gate: &G,
        batches: &[Batch],
        window: &mut Window,
    )
        requires may { MayGive self.old batches.now }
        requires tables { IsOpenForBatches self.old batches.now window.old }
        ensures { HasGiven self.old batches.now self.new window.new }
    {
        window.span = Span {
            first: self.batches,
            count: batches.len() as u32,
        };
        if batches.is_empty() {
            return;
        }
        every_window_is_ready();
        self.ring.allocate(
            rt,
            gate,
            &mut self.list,
            self.batches,
            batches,
            &mut window.slots,
        );
        self.paths
            .colour_slots(rt, gate, &window.slots, &mut window.cores);
        self.batches += window.span.count;
    }

    /// Writes the need that each flow has left into the table, by source and then destination.
    pub fn write_needs(&mut self, table: &mut [u32])
        requires stands { (net : Network) × (most : ℕ) × (batches : List DemandBatch) × HasAllocated net most batches self.old }
        requires long { length table.old ≡ self.old.ring.endpoints * self.old.ring.endpoints }
        ensures needs { Needs self.new.ring.endpoints self.new.list.items table.new }
        ensures same { self.new ≡ self.old }
    {
        recorded_batches_may_be_applied();
        self.list.leave();
        write_needs(&self.list.list, self.endpoints, table);
    }
}
