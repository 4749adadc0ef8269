//! The rounds of a text, played one after the other.
ghost use Rattle.std.specs.Prelude.{◌≡◌, ◌<◌, ◌≤◌, ◌+◌, ◌*◌, ◌^◌, ◌∷◌, ◌++◌, List, [], length, IfOk, OnOk};
ghost use Rattle.clos_topology.specs.Network.{endpoints_of};
ghost use Rattle.greedy_rules.specs.declared.flows.Entry.{Entry};
ghost use Rattle.greedy_rules.specs.Batches.{DemandBatch};
ghost use Rattle.greedy_rules.specs.Limits.{AreLimits};
ghost use Rattle.greedy_rules.specs.Recorded.{AreRecorded};
ghost use Rattle.schedule_audit.specs.Texts.{records_of};
ghost use Rattle.schedule_audit.specs.Played.{BeginWith, RoundsStand, AuditIsPlayed};
ghost use Rattle.schedule_audit.specs.Walked.{IsSameText};

use crate::demand::Demand;
use crate::judges::Judges;
use crate::ledger::Ledger;
use crate::passing::walk;
use crate::recorded::Recorded;
use crate::seen_flows::SeenFlows;
use clos_topology::Net;
use greedy_rules::{
    Batch, Entry, Limits, every_slot_is_in_range, recorded_batches_may_be_applied, schedules_go_on,
};
use no_memory::NoMemory;
use slot_batches::every_batch_leaves_a_list;
use std::alloc::Global;

/// The records of a text, of which those before `next` went by, what is kept of each flow, and the demand that is left with the
/// slots of the last round.
#[derive(Drop)]
pub(crate) struct Rounds {
    records: Vec<Recorded>,
    next: usize,
    pub(crate) ledger: Ledger,
    pub(crate) demand: Demand,
}

/// The batch of a round, whose records come first.
fn read_batch(
    alloc: Global,
    todo: &[Recorded],
    round: u32,
    limits: Limits,
    seen: &SeenFlows,
) -> Result<Batch, NoMemory>
    requires limits { AreLimits limits }
    requires begins { (entries : List Entry) × (later : List DemandBatch) × BeginWith round seen.now entries later todo.now }
    ensures { (entries : List Entry) → (later : List DemandBatch) → BeginWith round seen.now entries later todo.now → IfOk result (λ batch. batch ≡ record { entries = entries; limits = limits }) }
{
    let mut batch = Batch::with_limits(alloc, limits);
    let mut at = 0;
    while at < todo.len() && todo[at].batch == round {
        let record = todo[at];
        batch.push(Entry {
            flow: record.flow,
            opens: seen.get(record.flow) == 0,
            clear: record.clear,
            add: record.add,
        })?;
        at += 1;
    }
    Ok(batch)
}

impl Rounds {
    pub(crate) fn open(
        alloc: Global,
        net: &Net,
        records: Vec<Recorded>,
        b: u8,
    ) -> Result<Rounds, NoMemory>
        requires { b ≤ 64 }
        ensures { IfOk result (λ rounds. (later : List DemandBatch) → AreRecorded (endpoints_of net.now) (record { hosts = net.now.hosts; cores = net.now.cores }) later → records.items ≡ records_of 0 later → RoundsStand net.now b [] later rounds) }
    {
        let endpoints = net.endpoints();
        Ok(Rounds {
            records,
            next: 0,
            ledger: Ledger::open(alloc, endpoints)?,
            demand: Demand::open(alloc, endpoints, b)?,
        })
    }

    /// Plays the next round: its slots go by the judges.
    pub(crate) fn play(
        &mut self,
        alloc: Global,
        round: u32,
        b: u8,
        judges: &mut Judges,
    ) -> Result<(), NoMemory>
        requires numbers { round * b + b + 1 ≤ 2 ^ 32 }
        requires few { round < 2 ^ 30 }
        requires played { (front : List DemandBatch) × (batch : DemandBatch) × (later : List DemandBatch) × (length front ≡ round) × AuditIsPlayed judges.old.net b front (batch ∷ later) self.old judges.old }
        ensures played { OnOk result ((front : List DemandBatch) → (batch : DemandBatch) → (later : List DemandBatch) → length front ≡ round → AuditIsPlayed judges.old.net b front (batch ∷ later) self.old judges.old → AuditIsPlayed judges.old.net b (front ++ batch ∷ []) later self.new judges.new) }
        ensures text { OnOk result (IsSameText judges.old judges.new) }
    {
        recorded_batches_may_be_applied();
        every_batch_leaves_a_list();
        schedules_go_on();
        every_slot_is_in_range();
        let limits = Limits {
            hosts: judges.net.hosts(),
            cores: judges.net.cores(),
        };
        let todo = &self.records[self.next..];
        let batch = read_batch(alloc, todo, round, limits, &self.ledger.seen)?;
        self.next += batch.len();
        self.ledger.enter(&batch, &judges.slots);
        let first_slot = round * u32::from(b) + 1;
        self.demand.serve(&batch, first_slot);
        walk(judges, self.demand.slots(), first_slot, b);
        Ok(())
    }
}
