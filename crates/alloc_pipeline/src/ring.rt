ghost use Rattle.std.specs.Prelude.{◌≡◌, ◌≤◌, ◌+◌, ◌-◌, ◌*◌, [], IfOk, length, drop, replicate};
ghost use Rattle.ring_core.specs.Cores.{pairs_of};
ghost use Rattle.alloc_pipeline.specs.Ring.{IsRingSize as MayBeOpened, MayAllocate, Allocates, AllocatesBehind};

use crate::crew::{Crew, copy_slots};
use fp_edge::Gate;
use greedy_rules::{Batch, DemandList, SlotTable};
use no_memory::NoMemory;
use slot_batches::every_batch_leaves_a_list;
use std::alloc::Global;
use std::marker::Model;
use std::sync::Wait;
use std::thread::Threads;

/// A ring of workers, in threads where the list is long enough, that allocates windows of batches.
#[derive(Drop)]
pub struct Ring {
    crew: Crew,
}

impl Model for Ring {
    ghost use Rattle.std.specs.Prelude.{length};
    ghost use Rattle.alloc_pipeline.specs.Ring.{RingWork};
    ghost use Rattle.alloc_pipeline.specs.Crews.{CrewIsReady, moved_of};

    ghost Value = { RingWork };

    ghost view = { λ r. record { workers = r.crew.count; endpoints = r.crew.endpoints; batches = r.crew.batches; b = r.crew.b; moved = moved_of r.crew.resting.passes.items; spare = length r.crew.resting.spare } };

    ghost invariant = { λ r. CrewIsReady r.crew };
}

impl Ring {
    /// For so many workers (1 to 16), endpoints, batches a window (1 to 16) and slots a batch (1 to 64). No later call takes
    /// memory.
    pub fn open(
        alloc: Global,
        workers: u16,
        endpoints: u16,
        batches: u16,
        b: u8,
    ) -> Result<Ring, NoMemory>
        requires sizes { MayBeOpened workers endpoints batches b }
        ensures { IfOk result (λ ring. ring ≡ record { workers = workers; endpoints = endpoints; batches = batches; b = b; moved = replicate workers 0; spare = pairs_of endpoints }) }
    {
        Ok(Ring {
            crew: Crew::open(alloc, workers, endpoints, batches, b)?,
        })
    }

    /// Gives the batches their slots, the first of number `first_batch`, each applied to the list that the one before it
    /// left: slot i of the batch at place s, both counted from 0, stands at place `s * b + i` of `out`, and no other place is
    /// filled. Each piece of the lists goes through the queue of its edge; a worker takes it once the gate lets it.
    pub fn allocate<R: Threads + Wait + Sync, G: Gate + Sync>(
        &mut self,
        rt: &R,
        gate: &G,
        list: &mut DemandList,
        first_batch: u32,
        batches: &[Batch],
        out: &mut SlotTable,
    )
        requires may { MayAllocate self.old first_batch list.old batches.now out.old }
        ensures allocates { Allocates self.old self.new first_batch list.old list.new batches.now out.old out.new }
    {
        out.clear();
        self.allocate_behind(rt, gate, list, first_batch, batches, 0, out);
    }

    /// Gives the batches their slots as `allocate` does, behind those of so many batches: slot i of the batch at place s stands
    /// at place `(passed + s) * b + i` of `out`, whose places from `passed * b` on are empty; those before stay as they are.
    pub fn allocate_behind<R: Threads + Wait + Sync, G: Gate + Sync>(
        &mut self,
        rt: &R,
        gate: &G,
        list: &mut DemandList,
        first_batch: u32,
        batches: &[Batch],
        passed: u16,
        out: &mut SlotTable,
    )
        requires may { MayAllocate self.old first_batch list.old batches.now out.old }
        requires places { (passed + length batches.now) * self.old.b ≤ length out.old.slots }
        requires empty { drop (passed * self.old.b) out.old.slots ≡ replicate (length out.old.slots - passed * self.old.b) [] }
        ensures allocates { AllocatesBehind passed self.old self.new first_batch list.old list.new batches.now out.old out.new }
    {
        every_batch_leaves_a_list();
        self.crew.play(rt, gate, list, first_batch, batches);
        copy_slots(
            &self.crew.resting.workers,
            self.crew.b,
            batches.len(),
            passed,
            out,
        );
    }
}
