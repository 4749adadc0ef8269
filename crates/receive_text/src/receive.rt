//! The desk that receives the packets of a trace.
ghost use Rattle.std.specs.Prelude.{◌≡◌, ℕ, length, map, reverse, All, IfOk};
ghost use Rattle.clos_topology.specs.Network.{endpoints_of};
ghost use Rattle.trace_text.specs.Trace.{TraceContent, puts_at};
ghost use Rattle.trace_text.specs.Valid.{IsTrace};
ghost use Rattle.front_desk.specs.declared.progress.Progress.TheVariants.{Closed};
ghost use Rattle.front_desk.specs.State.{LineState, HavePolled};
ghost use Rattle.receive_text.specs.ReceiveText.{recorded_in};
ghost use Rattle.receive_text.specs.Putting.{HaveFilled, MayAllPut, AreAllSeated};
ghost use Rattle.receive_text.specs.declared.filling.Filling.{Filling};
ghost use Rattle.receive_text.specs.Received.{HasReceived, HasWindows, IsOpenFor, IsRoomFor};

use crate::filling::{Filling, are_enough, fill_all};
use front_desk::{Desk, Seats};
use greedy_rules::{Batch, Limits};
use no_memory::NoMemory;
use std::alloc::Global;
use std::sync::atomic::{AtomicBool, Ordering};
use std::thread::{self, Threads};
use trace_text::Trace;

/// The slots of a batch and the rounds of a window: neither shows in what is received in round 0.
const BATCH: u8 = 8;

const WINDOW: u8 = 8;

/// The desk passes over the rings at most so often while packets are put: it takes the rest when the seats are closed.
const MOST_PASSES: u32 = 10_000;

/// The most packets of an endpoint, and at least one.
fn most_put(trace: &Trace) -> u32
    requires { IsTrace trace.now }
    ensures { IsRoomFor trace.now result }
{
    let mut most = 1;
    for endpoint in 0..trace.endpoints() {
        most = most.max(trace.put_count(endpoint));
    }
    most as u32
}

/// The seats of a desk, to be filled, by falling endpoint.
fn to_fill(alloc: Global, seats: Seats) -> Result<Vec<Filling>, NoMemory>
    ensures { IfOk result (λ fillings. seats ≡ reverse (map (λ (filling : Filling). filling.seat) fillings.items)) }
{
    let mut seats = seats;
    let mut fillings = Vec::new(alloc);
    while let Some(seat) = seats.pop() {
        fillings.push(Filling {
            seat,
            enough: false,
        })?;
    }
    Ok(fillings)
}

/// A desk for the endpoints of a trace, with its seats.
fn open_for(alloc: Global, trace: &Trace) -> Result<(Desk, Vec<Filling>), NoMemory>
    requires { IsTrace trace.now }
    ensures { IfOk result (λ opened. IsOpenFor trace.now opened.0 opened.1.items) }
{
    let room = most_put(trace);
    let (desk, seats) = Desk::open(alloc, trace.endpoints(), BATCH, WINDOW, room)?;
    Ok((desk, to_fill(alloc, seats)?))
}

/// Takes what is put, pass after pass, until all was put or there were enough passes.
fn poll_until(desk: &mut Desk, ended: &AtomicBool)
    ensures { HavePolled desk.old desk.new }
{
    for _ in 0..MOST_PASSES {
        desk.poll(0);
        if ended.load(Ordering::SeqCst) {
            break;
        }
        thread::yield_now();
    }
}

/// Fills the seats from threads of their own, while the desk takes what it sees; where no thread can be made the caller fills them.
fn fill_beside<R: Threads + Sync>(
    rt: &R,
    alloc: Global,
    trace: &Trace,
    ended: &AtomicBool,
    desk: &mut Desk,
    fillings: &mut Vec<Filling>,
)
    requires { MayAllPut trace.now fillings.old.items }
    ensures polled { HavePolled desk.old desk.new }
    ensures filled { HaveFilled trace.now fillings.old.items fillings.new.items }
{
    thread::join_mut(
        rt,
        &mut ||
            requires { MayAllPut trace.now fillings.now.items }
            ensures { HaveFilled trace.entry.now fillings.entry.now.items fillings.exit.now.items }
        {
            fill_all(rt, alloc, trace, fillings);
            ended.store(true, Ordering::SeqCst);
        },
        &mut ||
            ensures { HavePolled desk.entry.now desk.exit.now }
        { poll_until(desk, ended) },
    );
}

/// Closes each seat: what is left in its ring is taken.
fn close_all(desk: &mut Desk, fillings: Vec<Filling>)
    requires { AreAllSeated desk.old fillings.items }
    ensures closed { All (λ (line : LineState). line.progress ≡ Closed) desk.new }
    ensures windows { HasWindows desk.old → HasWindows desk.new }
    ensures received { (trace : TraceContent) → HasWindows desk.old → length desk.old ≡ endpoints_of trace.net → All (λ (filling : Filling). filling.seat.put ≡ puts_at trace filling.seat.endpoint) fillings.items → HasReceived trace desk.new }
{
    let mut fillings = fillings;
    while let Some(filling) = fillings.pop() {
        desk.close(0, filling.seat);
    }
}

/// Puts the packets of a trace, gives each to the lane of its endpoint, and records what the lanes read.
pub(crate) fn receive<R: Threads + Sync>(
    rt: &R,
    alloc: Global,
    trace: &Trace,
) -> Result<(Desk, Batch), NoMemory>
    requires { IsTrace trace.now }
    ensures received { IfOk result (λ received. HasReceived trace.now received.0) }
    ensures recorded { IfOk result (λ received. received.1.entries ≡ recorded_in trace.now) }
{
    let (mut desk, mut fillings) = open_for(alloc, trace)?;
    let ended = AtomicBool::new(false);
    fill_beside(rt, alloc, trace, &ended, &mut desk, &mut fillings);
    if !are_enough(&fillings) {
        return Err(NoMemory);
    }
    close_all(&mut desk, fillings);
    let mut batch = Batch::with_limits(alloc, Limits { hosts: 1, cores: 1 });
    desk.record(0, &mut batch)?;
    Ok((desk, batch))
}
