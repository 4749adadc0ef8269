ghost use Rattle.std.specs.Prelude.{◌≡◌, ◌≢◌, ◌<◌, ◌≤◌, ◌+◌, ◌*◌, ◌^◌, length, IfOk, OnOk};
ghost use Rattle.greedy_rules.specs.Schedule.{first_slot, schedule_from_by, rest_from_by};
ghost use Rattle.greedy_rules.specs.Examples.{remaining};
ghost use Rattle.run_text.specs.Sizes.{AreSizes};
ghost use Rattle.fewest_plan.specs.Standing.{HasPlanned, planner_window, MayAllBeServed, IsPlanned};

use crate::laws::every_window_is_ready;
use fewest_order::FewestFirst;
use fp_edge::Gate;
use greedy_rules::{Batch, SlotTable, schedules_by_key_go_on};
use path_workers::{CoreTable, Paths};
use plan_rounds::{Collection, NoMemory};
use run_text::Sizes;
use std::alloc::Global;
use std::sync::Wait;
use std::thread::Threads;
use trace_text::Trace;

/// The batches of some rounds, the first of which has this number, their slots, and the cores of these: slot i of batch s, both
/// counted from 0, stands at place `s * b + i`.
#[derive(Drop)]
pub(crate) struct Window {
    pub(crate) first: u32,
    pub(crate) batches: Vec<Batch>,
    pub(crate) slots: SlotTable,
    pub(crate) cores: CoreTable,
}

/// Plans a trace by need, window after window of rounds.
#[derive(Drop)]
pub(crate) struct Planner {
    alloc: Global,
    b: u8,
    g: u8,
    pub(crate) collection: Collection,
    pub(crate) order: FewestFirst,
    paths: Paths,
}

impl Planner {
    /// Before the first round of the trace.
    pub(crate) fn open(alloc: Global, trace: &Trace, sizes: Sizes) -> Result<Planner, NoMemory>
        requires { AreSizes sizes }
        ensures stands { IfOk result (HasPlanned trace.now) }
        ensures start { IfOk result (λ planner. planner.collection.rounds ≡ 0) }
        ensures b { IfOk result (λ planner. planner.b ≡ sizes.b) }
    {
        let endpoints = trace.endpoints();
        let slots = u16::from(sizes.g) * u16::from(sizes.b);
        Ok(Planner {
            alloc,
            b: sizes.b,
            g: sizes.g,
            collection: Collection::open(alloc, trace)?,
            order: FewestFirst::open(alloc, endpoints, sizes.b)?,
            paths: Paths::open(alloc, trace.net(), u16::from(sizes.paths), slots)?,
        })
    }

    /// Plans the next window of `g` rounds, or of those that are left: collects their batches, and gives these their slots and
    /// cores. The trace is the one given to `open`; after want of memory the planner is only to be dropped.
    pub(crate) fn window<R: Threads + Wait + Sync, G: Gate + Sync>(
        &mut self,
        rt: &R,
        gate: &G,
        trace: &Trace,
    ) -> Result<Window, NoMemory>
        requires stands { HasPlanned trace.now self.old }
        requires more { self.old.collection.rounds ≢ trace.now.rounds }
        ensures stands { OnOk result (HasPlanned trace.now self.new) }
        ensures rounds { OnOk result (self.new.collection.rounds ≡ self.old.collection.rounds + planner_window trace.now self.old) }
        ensures b { OnOk result (self.new.b ≡ self.old.b) }
        ensures planned { IfOk result (IsPlanned trace.now self.old.b self.old.collection.rounds (planner_window trace.now self.old)) }
    {
        every_window_is_ready();
        let first = self.collection.rounds();
        let count = u32::from(self.g).min(trace.rounds() - first);
        let batches = self.collection.window(self.alloc, trace, count)?;
        let places = count as u16 * u16::from(self.b);
        let mut slots = SlotTable::open(self.alloc, places, trace.endpoints())?;
        serve_all(&mut self.order, &batches, first, self.b, &mut slots)?;
        let mut cores = CoreTable::open(self.alloc, places, trace.endpoints())?;
        self.paths.colour_slots(rt, gate, &slots, &mut cores);
        Ok(Window {
            first,
            batches,
            slots,
            cores,
        })
    }
}

/// Gives the batches, of which the first has this number, their slots, one batch after the other.
fn serve_all(
    order: &mut FewestFirst,
    batches: &[Batch],
    first: u32,
    b: u8,
    slots: &mut SlotTable,
) -> Result<(), NoMemory>
    requires b { order.old.b ≡ b }
    requires may { MayAllBeServed order.old.endpoints b first order.old.items batches.now }
    requires few { length batches.now ≤ 16 }
    requires size { (0 < b) × (b ≤ 64) }
    requires numbers { first_slot b (first + length batches.now) ≤ 2 ^ 32 }
    requires places { length slots.old.slots ≡ length batches.now * b }
    requires endpoints { slots.old.endpoints ≡ order.old.endpoints }
    ensures slots { OnOk result (slots.new.slots ≡ schedule_from_by remaining b first order.old.items batches.now) }
    ensures list { OnOk result (order.new.items ≡ rest_from_by remaining b first order.old.items batches.now) }
    ensures endpoints { OnOk result (slots.new.endpoints ≡ slots.old.endpoints) }
    ensures same_endpoints { OnOk result (order.new.endpoints ≡ order.old.endpoints) }
    ensures same_b { OnOk result (order.new.b ≡ order.old.b) }
{
    schedules_by_key_go_on();
    for at in 0..batches.len() {
        let number = (first + at as u32) * u32::from(b) + 1;
        order.serve(&batches[at], number)?;
        slots.copy(order.slots(), at as u16 * u16::from(b));
    }
    Ok(())
}
