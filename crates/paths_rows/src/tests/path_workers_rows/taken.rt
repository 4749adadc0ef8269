ghost use Rattle.std.specs.Prelude.{◌≡◌, ◌≤◌, length, All, IfOk};
ghost use Rattle.greedy_rules.specs.Matching.{IsMatching};

use super::{colour, put_all};
use clos_topology::Net;
use fp_edge::Gate;
use greedy_rules::SlotTable;
use path_workers::{CoreTable, NoMemory, Paths};
use std::alloc::Global;
use std::process::Abort;
use std::sync::Wait;
use std::sync::atomic::{AtomicU64, Ordering};
use std::test::Fail;
use std::thread::Threads;

// So many slots each table has.
const SLOTS: u16 = 24;

// Counts how often path workers take up each slot.
#[derive(Drop)]
struct Counts {
    slots: Vec<AtomicU64>,
    // And what is no slot of the table, or no worker.
    others: AtomicU64,
    workers: u16,
}

impl Counts {
    fn open(alloc: Global, workers: u16) -> Result<Counts, NoMemory> {
        let mut slots = Vec::new(alloc);
        for _ in 0..SLOTS {
            slots.push(AtomicU64::new(0))?;
        }
        Ok(Counts {
            slots,
            others: AtomicU64::new(0),
            workers,
        })
    }

    fn check(&self, rt: &impl Abort, times: u64) {
        for count in &self.slots {
            assert_eq!(rt; count.load(Ordering::SeqCst), times);
        }
        assert_eq!(rt; self.others.load(Ordering::SeqCst), 0);
    }
}

impl Gate for Counts {
    fn enter(&self, _worker: u16, _stage: u32, _piece: u32) {}

    fn paint(&self, worker: u16, slot: u32) {
        let count = match self.slots.get(slot as usize) {
            Some(count) if worker < self.workers => count,
            _ => &self.others,
        };
        let _ = count.fetch_add(1, Ordering::SeqCst);
    }
}

// What is sent in a slot: of three, the third has packets within racks alone.
fn packets(slot: u16) -> [(u16, u16); 3] {
    match slot % 3 {
        0 => [(0, 2), (1, 4), (2, 0)],
        1 => [(0, 3), (2, 5), (4, 1)],
        _ => [(0, 1), (2, 3), (4, 5)],
    }
}

fn table(rt: &impl Abort, alloc: Global) -> Result<SlotTable, NoMemory>
    ensures matchings { IfOk result (λ slots. All IsMatching slots.slots) }
    ensures count { IfOk result (λ slots. length slots.slots ≡ 24) }
{
    let mut slots = SlotTable::open(alloc, SLOTS, 6)?;
    for slot in 0..SLOTS {
        put_all(rt, &mut slots, slot, &packets(slot));
    }
    Ok(slots)
}

// Colours the table twice with so many path workers.
fn check_workers<R: Abort + Threads + Wait + Sync>(
    rt: &R,
    alloc: Global,
    slots: &SlotTable,
    workers: u16,
) -> Result<(), Fail>
    requires matchings { All IsMatching slots.now.slots }
    requires count { length slots.now.slots ≡ 24 }
    requires some { 1 ≤ workers }
    requires few { workers ≤ 16 }
{
    let net = Net::new(3, 2, 2)?;
    let gate = Counts::open(alloc, workers)?;
    let mut paths = Paths::open(alloc, &net, workers, SLOTS)?;
    let mut out = CoreTable::open(alloc, SLOTS, 6)?;
    colour(rt, &gate, alloc, &mut paths, &net, slots, &mut out)?;
    gate.check(rt, 1);
    colour(rt, &gate, alloc, &mut paths, &net, slots, &mut out)?;
    gate.check(rt, 2);
    Ok(())
}

// Every slot is taken up once a call, under its own number, for any number of path workers.
#[test]
fn each_slot_is_taken_up_once(rt: HostRuntime) -> Result<(), Fail> {
    let alloc = rt.alloc();
    let slots = table(&rt, alloc)?;
    for workers in [1, 2, 3, 16] {
        check_workers(&rt, alloc, &slots, workers)?;
    }
    Ok(())
}
