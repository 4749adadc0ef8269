//! The ring, which is handed what of a window may change.
ghost use Rattle.std.specs.Prelude.{◌≡◌, ◌<◌, ◌≤◌, ◌+◌, ◌-◌, ◌*◌, [], ◌++◌, length, take, drop, replicate, IfOk};
ghost use Rattle.greedy_rules.specs.Schedule.{schedule_from, rest_from};
ghost use Rattle.alloc_pipeline.specs.Ring.{IsRingSize as MayBeOpened, IsSameRingWork, MayAllocate, pairs_of};
ghost use Rattle.window_allocation.specs.Picked.{HasRoomForPairs, IsReached};
ghost use Rattle.window_allocation.specs.Ready.{AnyPartMayBeApplied, MaySetAside};
ghost use Rattle.window_allocation.specs.Handed.{ComeOfRing};
ghost use Rattle.window_allocation.specs.Runs.{IsRingOfRuns, GivesSlots, IsPlayed, ArePlayed};
ghost use Rattle.window_allocation.specs.WindowLists.{demands_of, IsWindowList};

use crate::batches::{count_idle, count_run};
use crate::picked::Picked;
use crate::window_list::{WindowList, most_picked};
use alloc_pipeline::Ring;
use fp_edge::Gate;
use greedy_rules::{
    Batch, DemandList, SlotTable, every_batch_balances, flows_fit_pairs, schedules_go_on,
};
use no_memory::NoMemory;
use slot_batches::{
    every_batch_leaves_a_list, idle_lists_stay, items_beyond_reach_may_be_set_aside,
    items_may_be_set_aside,
};
use std::alloc::Global;
use std::marker::Model;
use std::sync::Wait;
use std::thread::Threads;

/// A ring that is handed what of a window's list may change, and of its batches those that may change it.
#[derive(Drop)]
pub(crate) struct WindowRing {
    parts: Parts,
}

impl Model for WindowRing {
    ghost use Rattle.std.specs.Prelude.{◌≡◌, ◌<◌, ◌≤◌};
    ghost use Rattle.alloc_pipeline.specs.Ring.{RingWork};
    ghost use Rattle.window_allocation.specs.Picked.{HasRoomForPairs};
    ghost use Rattle.window_allocation.specs.Runs.{IsRingOfRuns};

    ghost Value = { RingWork };

    ghost view = { λ r. r.parts.runs.ring };

    ghost invariant = { λ r. IsRingOfRuns r.parts.runs × HasRoomForPairs r.parts.runs.ring.endpoints r.parts.picked };
}

impl WindowRing {
    /// For so many workers (1 to 16), endpoints, batches a window (1 to 16) and slots a batch (1 to 64).
    pub(crate) fn open(
        alloc: Global,
        workers: u16,
        endpoints: u16,
        batches: u16,
        b: u8,
    ) -> Result<WindowRing, NoMemory>
        requires sizes { MayBeOpened workers endpoints batches b }
        ensures { IfOk result (λ ring. ring ≡ record { workers = workers; endpoints = endpoints; batches = batches; b = b; moved = replicate workers 0; spare = pairs_of endpoints }) }
    {
        Ok(WindowRing {
            parts: Parts {
                runs: Runs {
                    b,
                    ring: Ring::open(alloc, workers, endpoints, batches, b)?,
                },
                picked: Picked::open(alloc, endpoints)?,
            },
        })
    }

    /// Gives the batches their slots, as the ring does.
    pub(crate) fn allocate<R: Threads + Wait + Sync, G: Gate + Sync>(
        &mut self,
        rt: &R,
        gate: &G,
        list: &mut WindowList,
        first_batch: u32,
        batches: &[Batch],
        out: &mut SlotTable,
    )
        requires is { IsWindowList self.old.endpoints list.old }
        requires may { MayAllocate self.old first_batch (demands_of list.old) batches.now out.old }
        requires parts { AnyPartMayBeApplied self.old.endpoints self.old.b first_batch (demands_of list.old).items batches.now }
        ensures is { IsWindowList self.old.endpoints list.new }
        ensures allocates { GivesSlots self.old self.new first_batch (demands_of list.old) (demands_of list.new) batches.now out.old out.new }
        ensures handed { ComeOfRing self.old.b first_batch self.old.workers (demands_of list.old).items batches.now (schedule_from self.old.b first_batch (demands_of list.old).items batches.now) self.old.moved self.new.moved }
    {
        self.parts
            .allocate_window(rt, gate, list, first_batch, batches, out);
    }
}

/// The ring with its runs, and what is picked of a window's list.
#[derive(Drop)]
struct Parts {
    pub(crate) runs: Runs,
    pub(crate) picked: Picked,
}

impl Parts {
    /// The batches over what of the list may change, where that is little of it, and else over what of it they can choose, or over
    /// the whole list.
    fn allocate_window<R: Threads + Wait + Sync, G: Gate + Sync>(
        &mut self,
        rt: &R,
        gate: &G,
        list: &mut WindowList,
        first_batch: u32,
        batches: &[Batch],
        out: &mut SlotTable,
    )
        requires runs { IsRingOfRuns self.old.runs }
        requires memory { HasRoomForPairs self.old.runs.ring.endpoints self.old.picked }
        requires is { IsWindowList self.old.runs.ring.endpoints list.old }
        requires may { MayAllocate self.old.runs.ring first_batch (demands_of list.old) batches.now out.old }
        requires parts { AnyPartMayBeApplied self.old.runs.ring.endpoints self.old.runs.ring.b first_batch (demands_of list.old).items batches.now }
        ensures runs { IsRingOfRuns self.new.runs }
        ensures memory { HasRoomForPairs self.old.runs.ring.endpoints self.new.picked }
        ensures is { IsWindowList self.old.runs.ring.endpoints list.new }
        ensures allocates { GivesSlots self.old.runs.ring self.new.runs.ring first_batch (demands_of list.old) (demands_of list.new) batches.now out.old out.new }
        ensures handed { ComeOfRing self.old.runs.ring.b first_batch self.old.runs.ring.workers (demands_of list.old).items batches.now (schedule_from self.old.runs.ring.b first_batch (demands_of list.old).items batches.now) self.old.runs.ring.moved self.new.runs.ring.moved }
    {
        if batches.is_empty() {
            out.clear();
            return;
        }
        every_batch_leaves_a_list();
        flows_fit_pairs();
        let most = most_picked(list.len(), self.picked.slots.endpoints(), self.runs.b);
        if !list.pick(batches, most, &mut self.picked.items) {
            self.allocate_unpicked(rt, gate, &mut list.list, first_batch, batches, out);
            return;
        }
        items_may_be_set_aside();
        every_batch_balances();
        self.runs.allocate_runs(rt, gate, &mut self.picked.items, first_batch, batches, out);
        list.weave(self.picked.items.items());
    }

    /// The batches over what of the list they can choose, where that is not much of it and a guess finds it, and else over the
    /// whole list.
    fn allocate_unpicked<R: Threads + Wait + Sync, G: Gate + Sync>(
        &mut self,
        rt: &R,
        gate: &G,
        list: &mut DemandList,
        first_batch: u32,
        batches: &[Batch],
        out: &mut SlotTable,
    )
        requires runs { IsRingOfRuns self.old.runs }
        requires memory { HasRoomForPairs self.old.runs.ring.endpoints self.old.picked }
        requires may { MayAllocate self.old.runs.ring first_batch list.old batches.now out.old }
        requires some { 0 < length batches.now }
        requires parts { AnyPartMayBeApplied self.old.runs.ring.endpoints self.old.runs.ring.b first_batch list.old.items batches.now }
        ensures runs { IsRingOfRuns self.new.runs }
        ensures memory { HasRoomForPairs self.old.runs.ring.endpoints self.new.picked }
        ensures allocates { GivesSlots self.old.runs.ring self.new.runs.ring first_batch list.old list.new batches.now out.old out.new }
        ensures handed { ComeOfRing self.old.runs.ring.b first_batch self.old.runs.ring.workers list.old.items batches.now (schedule_from self.old.runs.ring.b first_batch list.old.items batches.now) self.old.runs.ring.moved self.new.runs.ring.moved }
    {
        every_batch_leaves_a_list();
        flows_fit_pairs();
        if self.picked.reach(list.items(), batches, self.runs.b) {
            self.allocate_reached(rt, gate, list, first_batch, batches, out);
            return;
        }
        self.runs
            .allocate_runs(rt, gate, list, first_batch, batches, out);
    }

    /// The batches over the items that were picked by a guess; where the slots say that they could choose another, over the whole
    /// list after all.
    fn allocate_reached<R: Threads + Wait + Sync, G: Gate + Sync>(
        &mut self,
        rt: &R,
        gate: &G,
        list: &mut DemandList,
        first_batch: u32,
        batches: &[Batch],
        out: &mut SlotTable,
    )
        requires runs { IsRingOfRuns self.old.runs }
        requires memory { HasRoomForPairs self.old.runs.ring.endpoints self.old.picked }
        requires few { length batches.now * self.old.runs.b ≤ 64 }
        requires may { MayAllocate self.old.runs.ring first_batch list.old batches.now out.old }
        requires aside { MaySetAside self.old.runs.ring.endpoints self.old.runs.ring.b first_batch self.old.picked.marks list.old.items batches.now }
        requires reached { IsReached self.old.picked.marks list.old.items self.old.picked.items.items self.old.picked.places.items }
        ensures runs { IsRingOfRuns self.new.runs }
        ensures memory { HasRoomForPairs self.old.runs.ring.endpoints self.new.picked }
        ensures allocates { GivesSlots self.old.runs.ring self.new.runs.ring first_batch list.old list.new batches.now out.old out.new }
        ensures handed { ComeOfRing self.old.runs.ring.b first_batch self.old.runs.ring.workers list.old.items batches.now (schedule_from self.old.runs.ring.b first_batch list.old.items batches.now) self.old.runs.ring.moved self.new.runs.ring.moved }
    {
        every_batch_leaves_a_list();
        flows_fit_pairs();
        schedules_go_on();
        every_batch_balances();
        items_may_be_set_aside();
        items_beyond_reach_may_be_set_aside();
        self.runs.allocate_runs(rt, gate, &mut self.picked.items, first_batch, batches, out);
        if self
            .picked
            .keeps_out(list.items(), batches, self.runs.b, out)
        {
            self.picked.weave_into(list);
            return;
        }
        self.runs
            .allocate_runs(rt, gate, list, first_batch, batches, out);
    }
}

/// A ring that plays the batches of a window run by run, and how many slots each batch has.
#[derive(Drop)]
pub(crate) struct Runs {
    pub(crate) b: u8,
    pub(crate) ring: Ring,
}

impl Runs {
    /// Gives the batches of a window their slots, run by run.
    fn allocate_runs<R: Threads + Wait + Sync, G: Gate + Sync>(
        &mut self,
        rt: &R,
        gate: &G,
        list: &mut DemandList,
        first_batch: u32,
        batches: &[Batch],
        out: &mut SlotTable,
    )
        requires runs { IsRingOfRuns self.old }
        requires may { MayAllocate self.old.ring first_batch list.old batches.now out.old }
        ensures runs { IsRingOfRuns self.new }
        ensures allocates { GivesSlots self.old.ring self.new.ring first_batch list.old list.new batches.now out.old out.new }
        ensures played { ArePlayed self.old.ring.b first_batch self.old.ring.workers list.old.items batches.now self.old.ring.moved self.new.ring.moved }
    {
        every_batch_leaves_a_list();
        schedules_go_on();
        flows_fit_pairs();
        out.clear();
        let mut served = 0;
        while served < batches.len() {
            served += self.allocate_run(
                rt,
                gate,
                served as u16,
                list,
                first_batch + served as u32,
                &batches[served..],
                out,
            );
        }
    }

    /// Gives the first of these batches their slots, behind those of so many batches that came before, and answers how many they
    /// are: all at the front that change nothing, which are passed over, or else a run that is played.
    fn allocate_run<R: Threads + Wait + Sync, G: Gate + Sync>(
        &mut self,
        rt: &R,
        gate: &G,
        passed: u16,
        list: &mut DemandList,
        first_batch: u32,
        batches: &[Batch],
        out: &mut SlotTable,
    ) -> usize
        requires runs { IsRingOfRuns self.old }
        requires some { 0 < length batches.now }
        requires may { MayAllocate self.old.ring first_batch list.old batches.now out.old }
        requires count { passed + length batches.now ≤ self.old.ring.batches }
        requires places { (passed + length batches.now) * self.old.ring.b ≤ length out.old.slots }
        requires empty { drop (passed * self.old.ring.b) out.old.slots ≡ replicate (length out.old.slots - passed * self.old.ring.b) [] }
        ensures runs { IsRingOfRuns self.new }
        ensures same { IsSameRingWork self.old.ring self.new.ring }
        ensures some { 0 < result }
        ensures count { result ≤ length batches.now }
        ensures list { list.new.items ≡ rest_from self.old.ring.b first_batch list.old.items (take result batches.now) }
        ensures spare { length list.new.items + list.new.spare ≡ length list.old.items + list.old.spare }
        ensures slots { out.new.slots ≡ (take (passed * self.old.ring.b) out.old.slots ++ schedule_from self.old.ring.b first_batch list.old.items (take result batches.now)) ++ replicate (length out.old.slots - (passed + result) * self.old.ring.b) [] }
        ensures endpoints { out.new.endpoints ≡ out.old.endpoints }
        ensures played { IsPlayed self.old.ring.b first_batch self.old.ring.workers list.old.items (take result batches.now) self.old.ring.moved self.new.ring.moved }
    {
        every_batch_leaves_a_list();
        idle_lists_stay();
        schedules_go_on();
        let idle = count_idle(list.items(), batches);
        if idle > 0 {
            return idle;
        }
        let run = count_run(list.items(), batches, self.b);
        self.ring
            .allocate_behind(rt, gate, list, first_batch, &batches[..run], passed, out);
        run
    }
}
