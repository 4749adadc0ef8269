ghost use Rattle.std.specs.Prelude.{◌≡◌, ◌<◌, ◌≤◌, ◌+◌, ℕ, List, [], length, All, IfOk};
ghost use Rattle.std.specs.List.{range_with_len};
ghost use Rattle.greedy_rules.specs.declared.flows.Flow.{Flow};
ghost use Rattle.greedy_rules.specs.Matching.{IsMatching};
ghost use Rattle.greedy_rules.specs.Schedule.{slot_in};
ghost use Rattle.clos_topology.specs.Network.{Network, endpoints_of};
ghost use Rattle.path_workers.specs.PathWork.{HaveWorked};
ghost use Rattle.path_workers.specs.CoreTable.{core_of, HasRoomOf, NamesNone};
ghost use Rattle.path_workers.specs.Coloured.{IsFlowOf, IsWithinCores, HasItsCores, HaveTheirCores};
ghost use Rattle.path_workers.specs.Painters.{numbers_of, IsPainter, HasPainted, MayPaint, HaveRows};

use crate::core_table::CoreTable;
use crate::jobs;
use crate::jobs::{JobPass, JobQueue};
use crate::painter::Painter;
use crate::seats::play;
use clos_topology::Net;
use fp_edge::Gate;
use greedy_rules::SlotTable;
use no_memory::NoMemory;
use std::alloc::Global;
use std::marker::Model;
use std::mem;
use std::sync::Wait;
use std::thread::Threads;

/// From so many slots and so many packets on, where there is more than one rack, workers get threads of their own.
const MANY: u32 = 16;

/// Path workers, which give the packets of many slots of one network their cores.
#[derive(Drop)]
pub struct Paths {
    alloc: Global,
    net: Net,
    slots: u16,
    painters: Vec<Painter>,
    queue: JobQueue,
    // The pass that puts jobs. Between two calls it has every part.
    pass: JobPass,
}

impl Model for Paths {
    ghost use Rattle.std.specs.Prelude.{vec_len};
    ghost use Rattle.path_workers.specs.Jobs.{jobs_put, taken_slots};
    ghost use Rattle.path_workers.specs.Painters.{numbers_of};
    ghost use Rattle.path_workers.specs.PathWork.{PathWork};
    ghost use Rattle.path_workers.specs.Crews.{IsCrew};

    ghost Value = { PathWork };

    ghost view = { λ p. record { net = p.net; slots = p.slots; paths = vec_len p.painters; numbers = numbers_of p.painters.items; jobs = jobs_put p.pass; taken = taken_slots p.pass } };

    ghost invariant = { IsCrew };
}

impl Paths {
    /// For this network, so many path workers, whose numbers are 0, 1, 2 and so on, and at most so many slots a call.
    pub fn open(alloc: Global, net: &Net, paths: u16, slots: u16) -> Result<Paths, NoMemory>
        requires some { 1 ≤ paths }
        requires few { paths ≤ 16 }
        requires slots { slots ≤ 1024 }
        ensures net { IfOk result (λ opened. opened.net ≡ net.now) }
        ensures slots { IfOk result (λ opened. opened.slots ≡ slots) }
        ensures paths { IfOk result (λ opened. opened.paths ≡ paths) }
        ensures numbers { IfOk result (λ opened. opened.numbers ≡ range_with_len 0 paths) }
        ensures jobs { IfOk result (λ opened. opened.jobs ≡ 0) }
        ensures taken { IfOk result (λ opened. opened.taken ≡ []) }
    {
        let mut painters = Vec::with_capacity(alloc, paths as usize)?;
        for number in 0..paths {
            painters.push_reserved(Painter::open(alloc, number, net, slots)?);
        }
        let (queue, pass) = jobs::open(alloc)?;
        Ok(Paths {
            alloc,
            net: *net,
            slots,
            painters,
            queue,
            pass,
        })
    }

    /// Gives each packet between racks of every slot its core, so that no two packets of a slot use one link. What `out`
    /// named before is forgotten. Each slot is a job that is taken once, by whichever worker comes first, and each worker
    /// has an end as its last job. The cores of a slot depend on the slot alone.
    pub fn colour_slots<R: Threads + Wait + Sync, G: Gate + Sync>(
        &mut self,
        rt: &R,
        gate: &G,
        slots: &SlotTable,
        out: &mut CoreTable,
    )
        requires count { length slots.now.slots ≤ self.old.slots }
        requires endpoints { All (All (IsFlowOf self.old.net)) slots.now.slots }
        requires matchings { All IsMatching slots.now.slots }
        requires degrees { All (IsWithinCores self.old.net) slots.now.slots }
        requires slot_room { length slots.now.slots ≤ out.old.slots }
        requires endpoint_room { endpoints_of self.old.net ≤ out.old.endpoints }
        ensures coloured { HaveTheirCores self.old.net slots.now.slots out.new }
        ensures out { HasRoomOf out.old out.new }
        ensures work { HaveWorked (length slots.now.slots) self.old self.new }
    {
        let workers = self.painters.len() as u16;
        let threads = workers > 1 && self.net.racks() > 1 && has_many(slots);
        forget(&mut self.painters);
        let painters = mem::replace(&mut self.painters, Vec::new(self.alloc));
        let pass = jobs::take_over(&self.queue, &mut self.pass);
        let (painters, pass) = play(
            rt,
            gate,
            slots,
            &self.queue,
            threads,
            workers,
            painters,
            pass,
        );
        jobs::join(&self.queue, &mut self.pass, pass);
        self.painters = painters;
        gather(&self.painters, out);
    }
}

/// Whether there are so many slots and packets that threads are started for them.
fn has_many(slots: &SlotTable) -> bool {
    if u32::from(slots.slots()) < MANY {
        return false;
    }
    let mut packets = 0u32;
    for slot in 0..slots.slots() {
        packets = packets.saturating_add(count_packets(slots, slot));
        if packets >= MANY {
            return true;
        }
    }
    false
}

/// How many packets the slot has. There is no early end, so many places are read at once.
fn count_packets(slots: &SlotTable, slot: u16) -> u32
    requires { slot < length slots.now.slots }
{
    if !slots.has_row(slot) {
        return 0;
    }
    slots.row(slot).iter().fold(
        0,
        |count: u32, to| count.wrapping_add(u32::from(to.is_some())),
    )
}

/// No worker has coloured a slot of the table that comes.
fn forget(painters: &mut [Painter])
    ensures painted { (net : Network) (room : ℕ) (slots : List (List Flow)) → All (IsPainter net room) painters.old → All (HasPainted net room slots) painters.new }
    ensures numbers { numbers_of painters.new ≡ numbers_of painters.old }
{
    for painter in painters {
        painter.forget();
    }
}

/// Fills the table with the row of every slot, each from a worker that made it. A slot that needs no cores has an empty one.
fn gather(painters: &[Painter], out: &mut CoreTable)
    requires painted { (table : List (List Flow)) × (length table ≤ out.old.slots) × All (MayPaint table) painters.now × HaveRows (length table) painters.now }
    requires endpoint_room { All (λ painter. endpoints_of painter.net ≤ out.old.endpoints) painters.now }
    ensures coloured { (net : Network) (table : List (List Flow)) → All (MayPaint table) painters.now → All (λ painter. painter.net ≡ net) painters.now → HaveRows (length table) painters.now → (at : ℕ) → at < length table → HasItsCores net (slot_in table at) (core_of out.new at) }
    ensures past { (net : Network) (table : List (List Flow)) → All (MayPaint table) painters.now → All (λ painter. painter.net ≡ net) painters.now → (at : ℕ) → length table ≤ at → NamesNone (core_of out.new at) }
    ensures room { HasRoomOf out.old out.new }
{
    out.clear();
    for painter in painters {
        painter.give_rows(out);
    }
}
