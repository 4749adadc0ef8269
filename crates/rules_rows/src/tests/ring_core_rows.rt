ghost use Rattle.std.specs.Prelude.{◌≡◌, ◌<◌, ◌≤◌, ◌+◌, length, IfOk, All};
ghost use Rattle.greedy_rules.specs.Batches.{IsBatch};
ghost use Rattle.greedy_rules.specs.Recorded.{AreRecorded};
ghost use Rattle.rules_rows.specs.Asks.{OpensOneSlot};
ghost use Rattle.ring_core.specs.Cores.{IsPlaying, IsSameRing};

use greedy_rules::{
    Batch, DemandList, Entry, Flow, Limits, SlotTable, recorded_batches_may_be_applied,
};
use ring_core::{NoMemory, RingCore, every_window_is_small};
use std::alloc::Global;
use std::process::Abort;
use std::test::Fail;

const RACKS: Limits = Limits {
    hosts: 44,
    cores: 44,
};

// A batch in which each endpoint from 1 to 130 asks for a slot to endpoint 0.
fn asks(alloc: Global) -> Result<Batch, NoMemory>
    ensures opens { IfOk result (λ batch. All OpensOneSlot batch.entries) }
    ensures rises { IfOk result (λ batch. IsBatch batch.entries) }
    ensures limits { IfOk result (λ batch. batch.limits ≡ record { hosts = 44; cores = 44 }) }
{
    let mut batch = Batch::with_limits(alloc, RACKS);
    for src in 1..131 {
        batch.push(Entry {
            flow: Flow { src, dst: 0 },
            opens: true,
            clear: false,
            add: 1,
        })?;
    }
    let _rises = batch.len();
    Ok(batch)
}

// These asks, and then batches without entries: so many in all.
pub(super) fn window(alloc: Global, batches: u16) -> Result<Vec<Batch>, NoMemory>
    requires { 1 ≤ batches }
    ensures recorded { IfOk result (λ window. AreRecorded 132 (record { hosts = 44; cores = 44 }) window.items) }
    ensures count { IfOk result (λ window. length window.items ≡ batches) }
{
    let mut window = Vec::with_capacity(alloc, batches as usize)?;
    window.push(asks(alloc)?)?;
    for _ in 1..batches {
        window.push(Batch::with_limits(alloc, RACKS))?;
    }
    Ok(window)
}

// The first of so many slots is the source's after those that were served before, and so on.
pub(super) fn check_slots(rt: &impl Abort, out: &SlotTable, before: u16, served: u16)
    requires { before + served ≤ 130 }
{
    for place in 0..out.slots() {
        for src in 0..out.endpoints() {
            let dst = (place < served && src == before + place + 1).then_some(0);
            assert_eq!(rt; out.to(place, src), dst);
        }
    }
}

// The list that is left has the sources that wait, then those that were served.
pub(super) fn check_list(rt: &impl Abort, list: &DemandList, served: u16)
    requires { served ≤ 130 }
{
    assert_eq!(rt; list.len(), 130);
    for at in 0..130 {
        let item = list.item(at as usize);
        let src = (at + served) % 130 + 1;
        let last = if src <= served { u32::from(src) } else { 0 };
        assert_eq!(rt; item.flow, Flow { src, dst: 0 });
        assert_eq!(rt; (item.need, item.last), (u32::from(src > served), last));
    }
}

// Eight batches of eight slots: a list of one piece is taken up and one of three given, and then seven times three and three.
#[test]
fn two_workers_take_forty_six_turns(rt: HostRuntime) -> Result<(), Fail> {
    let alloc = rt.alloc();
    let batches = window(alloc, 8)?;
    let mut core = RingCore::open(alloc, 2, 132, 8, 8, 2048)?;
    let mut list = DemandList::open(alloc, 65536)?;
    let mut out = SlotTable::open(alloc, 64, 132)?;
    recorded_batches_may_be_applied();
    every_window_is_small();
    core.begin(&mut list, 0, &batches);
    assert_eq!(rt; core.run_out(&batches), 46);
    core.take(&mut list, &mut out);
    check_slots(&rt, &out, 0, 64);
    check_list(&rt, &list, 64);
    Ok(())
}

// A turn of each of three workers, in this order.
fn round(core: &mut RingCore, batches: &[Batch], first: u16, second: u16, third: u16)
    requires playing { IsPlaying batches.now core.old }
    requires first { first < core.old.workers }
    requires second { second < core.old.workers }
    requires third { third < core.old.workers }
    ensures playing { IsPlaying batches.now core.new }
    ensures same { IsSameRing core.old core.new }
{
    core.step(batches, first);
    core.step(batches, second);
    core.step(batches, third);
}

// Plays a window of three batches, round after round in this order.
fn plays_in_order(
    rt: &impl Abort,
    alloc: Global,
    first: u16,
    second: u16,
    third: u16,
) -> Result<(), NoMemory>
    requires first { first < 3 }
    requires second { second < 3 }
    requires third { third < 3 }
{
    let batches = window(alloc, 3)?;
    let mut core = RingCore::open(alloc, 3, 132, 3, 8, 2048)?;
    let mut list = DemandList::open(alloc, 65536)?;
    let mut out = SlotTable::open(alloc, 24, 132)?;
    recorded_batches_may_be_applied();
    every_window_is_small();
    core.begin(&mut list, 0, &batches);
    for _ in 0..16 {
        round(&mut core, &batches, first, second, third);
    }
    assert!(rt; core.finished());
    core.take(&mut list, &mut out);
    check_slots(rt, &out, 0, 24);
    check_list(rt, &list, 24);
    Ok(())
}

#[test]
fn three_orders_of_turns_give_equal_answers(rt: HostRuntime) -> Result<(), Fail> {
    plays_in_order(&rt, rt.alloc(), 0, 1, 2)?;
    plays_in_order(&rt, rt.alloc(), 2, 1, 0)?;
    plays_in_order(&rt, rt.alloc(), 1, 0, 2)?;
    Ok(())
}
