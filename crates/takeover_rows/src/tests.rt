//! The rows: two endpoints, batches of one slot, leases of two batches.
ghost use Rattle.std.specs.Prelude.{◌≡◌, ◌<◌, ◌≤◌, ◌+◌, true, IfOk, OnOk};
ghost use Rattle.takeover_core.specs.Outcomes.{IsEvent};
ghost use Rattle.takeover_rows.specs.Caller.{CallerHasTaken, asked_by};

use greedy_rules::Flow;
use std::alloc::Global;
use std::process::Abort;
use std::test::Fail;
use takeover_core::{Event, NoMemory, Outcome, Pair, Refusal};
use takeover_history::asks_are_counted;

mod drawn;
mod scripts;
mod texts;

/// A pair with what its caller keeps: how many events came, and how many slots they asked for.
#[derive(Drop)]
struct Caller {
    pair: Pair,
    endpoints: u16,
    count: u32,
    asks: u32,
}

impl Caller {
    fn open(alloc: Global) -> Result<Caller, NoMemory>
        ensures { IfOk result (λ caller. CallerHasTaken caller.pair caller.endpoints caller.count caller.asks) }
    {
        Ok(Caller {
            pair: Pair::open(alloc, 2, 1, 2, 100)?,
            endpoints: 2,
            count: 0,
            asks: 0,
        })
    }

    fn step(&mut self, rt: &impl Abort, event: Event) -> Result<Outcome, NoMemory>
        requires { CallerHasTaken self.old.pair self.old.endpoints self.old.count self.old.asks }
        ensures { OnOk result (CallerHasTaken self.new.pair self.new.endpoints self.new.count self.new.asks) }
    {
        asks_are_counted();
        let slots = asked(event);
        let may = self.may_take(event);
        assert!(rt; may);
        self.count += 1;
        self.asks += slots;
        self.pair.step(event)
    }

    /// Whether the event may come.
    fn may_take(&self, event: Event) -> bool
        ensures { result ≡ true → IsEvent self.now.endpoints event × (self.now.count < 10000) × (self.now.asks + asked_by event ≤ 100000000) }
    {
        let slots = asked(event);
        is_event(self.endpoints, event)
            && self.count < 10_000
            && slots <= 100_000_000
            && self.asks <= 100_000_000 - slots
    }

    /// Takes the events of a row, each with what it answers.
    fn steps(&mut self, rt: &impl Abort, row: &[(Event, Outcome)]) -> Result<(), NoMemory>
        requires { CallerHasTaken self.old.pair self.old.endpoints self.old.count self.old.asks }
        ensures { OnOk result (CallerHasTaken self.new.pair self.new.endpoints self.new.count self.new.asks) }
    {
        for (event, answer) in row {
            let found = self.step(rt, *event)?;
            assert_eq!(rt; found, *answer);
        }
        Ok(())
    }

    fn totals(&self, rt: &impl Abort, src: u16, dst: u16) -> (u32, u32)
        requires { CallerHasTaken self.now.pair self.now.endpoints self.now.count self.now.asks }
    {
        assert!(rt; src < self.endpoints && dst < self.endpoints);
        self.pair.totals(Flow { src, dst })
    }
}

/// Whether the event's endpoints and nodes are there.
fn is_event(endpoints: u16, event: Event) -> bool
    ensures { result ≡ true → IsEvent endpoints event }
{
    match event {
        Event::Ask { src, dst, .. } => src < endpoints && dst < endpoints && src != dst,
        Event::Request { node } => node < 2,
        Event::Grant { .. } => true,
        Event::Take { node, .. } => node < 2,
        Event::Tell { src, node } => src < endpoints && node < 2,
        Event::Publish { node } => node < 2,
        Event::Hear { src, .. } => src < endpoints,
        Event::Crash { node } => node < 2,
    }
}

/// The slots that the event asks for.
fn asked(event: Event) -> u32
    ensures { result ≡ asked_by event }
{
    match event {
        Event::Ask { slots, .. } => slots,
        _ => 0,
    }
}

fn refused(name: Refusal) -> Outcome {
    Outcome::Refused { name }
}

fn granted(message: u32, node: u16, generation: u32, first: u32) -> Outcome {
    Outcome::Granted {
        message,
        node,
        generation,
        first,
    }
}

#[test]
fn a_node_takes_over(rt: HostRuntime) -> Result<(), Fail> {
    let mut caller = Caller::open(rt.alloc())?;
    let ask = Event::Ask {
        src: 0,
        dst: 1,
        slots: 3,
    };
    let row = [
        (ask, Outcome::Nothing),
        (Event::Request { node: 0 }, Outcome::Nothing),
        (Event::Grant { m: 0 }, granted(1, 0, 1, 0)),
        (Event::Take { node: 0, m: 1 }, Outcome::Nothing),
        (Event::Tell { src: 0, node: 0 }, Outcome::Nothing),
        (Event::Publish { node: 0 }, Outcome::Published { batch: 0 }),
        (Event::Request { node: 1 }, Outcome::Nothing),
        (Event::Grant { m: 2 }, granted(3, 1, 2, 2)),
        (Event::Take { node: 1, m: 3 }, Outcome::Nothing),
        (Event::Publish { node: 0 }, Outcome::Published { batch: 1 }),
        (
            Event::Hear { src: 0, batch: 0 },
            Outcome::Sent { from: 0, count: 1 },
        ),
        (Event::Tell { src: 0, node: 1 }, Outcome::Nothing),
        (Event::Hear { src: 0, batch: 1 }, refused(Refusal::Stale)),
        (Event::Publish { node: 1 }, Outcome::Published { batch: 2 }),
        (
            Event::Hear { src: 0, batch: 2 },
            Outcome::Sent { from: 1, count: 1 },
        ),
        (Event::Publish { node: 0 }, refused(Refusal::NoLease)),
    ];
    caller.steps(&rt, &row)?;
    assert_eq!(rt; caller.totals(&rt, 0, 1), (3, 2));
    assert_eq!(rt; caller.totals(&rt, 1, 0), (0, 0));
    let batch = caller.pair.batch();
    assert!(rt; batch.len() == 1 && batch.entry(0).add == 2);
    let slots = caller.pair.slots();
    assert!(rt; slots.slots() == 1 && slots.endpoints() == 2);
    assert_eq!(rt; slots.to(0, 0), Some(1));
    Ok(())
}

#[test]
fn a_grant_of_an_earlier_boot_is_refused(rt: HostRuntime) -> Result<(), Fail> {
    let mut caller = Caller::open(rt.alloc())?;
    let ask = Event::Ask {
        src: 0,
        dst: 1,
        slots: 1,
    };
    let row = [
        (ask, Outcome::Nothing),
        (Event::Request { node: 0 }, Outcome::Nothing),
        (Event::Grant { m: 0 }, granted(1, 0, 1, 0)),
        (Event::Take { node: 0, m: 1 }, Outcome::Nothing),
        (Event::Crash { node: 0 }, Outcome::Nothing),
        (Event::Take { node: 0, m: 1 }, refused(Refusal::OldBoot)),
        (Event::Publish { node: 0 }, refused(Refusal::NoLease)),
    ];
    caller.steps(&rt, &row)?;
    assert_eq!(rt; caller.totals(&rt, 0, 1), (1, 0));
    assert!(rt; caller.pair.batch().is_empty());
    Ok(())
}

/// Each refusal, by the first of its event's that holds.
#[test]
fn each_refusal_is_answered(rt: HostRuntime) -> Result<(), Fail> {
    let mut caller = Caller::open(rt.alloc())?;
    let row = [
        (Event::Grant { m: 0 }, refused(Refusal::NoMessage)),
        (Event::Tell { src: 0, node: 0 }, refused(Refusal::NoLease)),
        (Event::Publish { node: 1 }, refused(Refusal::NoLease)),
        (
            Event::Hear { src: 1, batch: 0 },
            refused(Refusal::Unpublished),
        ),
        (Event::Request { node: 0 }, Outcome::Nothing),
        (Event::Take { node: 0, m: 0 }, refused(Refusal::NoMessage)),
        (Event::Grant { m: 0 }, granted(1, 0, 1, 0)),
        (Event::Grant { m: 1 }, refused(Refusal::NoMessage)),
        (Event::Take { node: 1, m: 1 }, refused(Refusal::NoMessage)),
        (Event::Take { node: 0, m: 1 }, Outcome::Nothing),
        (Event::Take { node: 0, m: 1 }, refused(Refusal::OldLease)),
        (Event::Publish { node: 0 }, Outcome::Published { batch: 0 }),
        (Event::Hear { src: 0, batch: 0 }, Outcome::Nothing),
        (Event::Hear { src: 0, batch: 0 }, refused(Refusal::Repeat)),
        (Event::Request { node: 1 }, Outcome::Nothing),
        (Event::Grant { m: 2 }, granted(3, 1, 2, 2)),
        (Event::Take { node: 1, m: 3 }, Outcome::Nothing),
        (Event::Tell { src: 0, node: 1 }, Outcome::Nothing),
        (Event::Tell { src: 0, node: 0 }, refused(Refusal::Stale)),
        (Event::Hear { src: 0, batch: 0 }, refused(Refusal::Stale)),
        (Event::Crash { node: 0 }, Outcome::Nothing),
        (Event::Take { node: 0, m: 1 }, refused(Refusal::OldBoot)),
    ];
    caller.steps(&rt, &row)?;
    Ok(())
}
