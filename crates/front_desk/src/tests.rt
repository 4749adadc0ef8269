ghost use Rattle.std.specs.Prelude.{◌≡◌, ◌<◌, ◌≤◌, ◌+◌, [], length, All, IfOk};
ghost use Rattle.front_desk.specs.declared.progress.Progress.TheVariants as progress_of;
ghost use Rattle.front_desk.specs.State.{LineState, HavePolled};
ghost use Rattle.front_desk.specs.Examples.{AreOpenForTwo};

use crate::{Desk, NoMemory, Packet, Seat};
use greedy_rules::{Batch, Entry, Flow, Limits};
use std::alloc::Global;
use std::process::Abort;
use std::sync::atomic::{AtomicUsize, Ordering};
use std::test::Fail;
use std::thread::{self, Threads};

/// So many turns a thread waits for the other.
const TURNS: u32 = 10_000_000;

/// A seat takes so many packets.
const ROOM: u32 = 4;

/// The first reset of endpoint 0, and its first request, for one slot to endpoint 1.
const RESET: [u8; 8] = [1, 2, 0, 0, 0, 0, 0, 1];

const REQUEST: [u8; 32] = [
    1, 1, 0, 0, 0, 0, 0, 1, 0, 0, 0, 1, 0, 0, 0, 0, 0, 0, 0, 0, 0, 0, 0, 0, 0, 1, 0, 1, 0, 0, 0, 1,
];

/// Bytes of no packet.
const CUT: [u8; 2] = [1, 2];

/// The numbers of what an endpoint is refused.
const SHORT: u8 = 1;

const NOT_MINE: u8 = 25;

/// A desk for two endpoints, with the seats of both.
fn open_for_two(rt: &impl Abort, alloc: Global) -> Result<(Desk, Seat, Seat), NoMemory>
    ensures seats { IfOk result (λ opened. AreOpenForTwo opened.0 opened.1 opened.2) }
    ensures none { IfOk result (λ opened. (opened.1.put ≡ []) × (opened.2.put ≡ [])) }
{
    let (desk, mut seats) = Desk::open(alloc, 2, 8, 8, ROOM)?;
    let second = seats.pop();
    let first = seats.pop();
    match (first, second) {
        (Some(first), Some(second)) => Ok((desk, first, second)),
        _ => panic!(rt; "a seat is missing"),
    }
}

/// Closes both seats, the second first.
fn close_both(desk: &mut Desk, first: Seat, second: Seat)
    requires { AreOpenForTwo desk.old first second }
    ensures two { length desk.new ≡ 2 }
    ensures closed { All (λ (line : LineState). line.progress ≡ progress_of.Closed) desk.new }
{
    desk.close(0, second);
    desk.close(0, first);
}

/// Each packet was answered so.
fn check_answers(rt: &impl Abort, desk: &Desk, endpoint: u16, answers: &[u8])
    requires { endpoint < length desk.now }
{
    assert_eq!(rt; desk.taken(endpoint), answers.len());
    for at in 0..answers.len() {
        assert_eq!(rt; desk.answer(endpoint, at), answers[at]);
    }
}

/// The lanes record the one entry of the request.
fn check_record(rt: &impl Abort, alloc: Global, desk: &mut Desk) -> Result<(), NoMemory>
    requires { All (λ (line : LineState). line.progress ≡ progress_of.Closed) desk.old }
{
    let mut batch = Batch::with_limits(alloc, Limits { hosts: 2, cores: 1 });
    desk.record(0, &mut batch)?;
    assert_eq!(rt; batch.len(), 1);
    let entry = Entry {
        flow: Flow { src: 0, dst: 1 },
        opens: true,
        clear: false,
        add: 1,
    };
    assert_eq!(rt; batch.entry(0), entry);
    Ok(())
}

// A seat's packets go to its endpoint's lane, whatever they say of their source.
#[test]
fn each_lane_answers_its_own_seat(rt: HostRuntime) -> Result<(), Fail> {
    let alloc = rt.alloc();
    let (mut desk, mut first, mut second) = open_for_two(&rt, alloc)?;
    first.put(Packet::of(alloc, &RESET)?);
    second.put(Packet::of(alloc, &CUT)?);
    first.put(Packet::of(alloc, &REQUEST)?);
    second.put(Packet::of(alloc, &RESET)?);
    close_both(&mut desk, first, second);
    check_answers(&rt, &desk, 0, &[0, 0]);
    check_answers(&rt, &desk, 1, &[SHORT, NOT_MINE]);
    check_record(&rt, alloc, &mut desk)?;
    Ok(())
}

// The order within a seat is that of its answers; when the desk looked changes nothing.
#[test]
fn answers_stand_in_the_order_of_puts(rt: HostRuntime) -> Result<(), Fail> {
    let alloc = rt.alloc();
    let (mut desk, mut first, mut second) = open_for_two(&rt, alloc)?;
    second.put(Packet::of(alloc, &RESET)?);
    first.put(Packet::of(alloc, &RESET)?);
    desk.poll(0);
    second.put(Packet::of(alloc, &CUT)?);
    first.put(Packet::of(alloc, &REQUEST)?);
    close_both(&mut desk, first, second);
    check_answers(&rt, &desk, 0, &[0, 0]);
    check_answers(&rt, &desk, 1, &[NOT_MINE, SHORT]);
    check_record(&rt, alloc, &mut desk)?;
    Ok(())
}

/// Waits until as many packets were taken.
fn wait_for(taken: &AtomicUsize, count: usize) -> bool {
    for _ in 0..TURNS {
        if taken.load(Ordering::SeqCst) >= count {
            return true;
        }
        thread::yield_now();
    }
    false
}

/// Puts a packet, and another one once the first was taken.
fn send_both(seat: Seat, one: Packet, other: Packet, taken: &AtomicUsize) -> (Seat, bool)
    requires none { seat.put ≡ [] }
    requires room { seat.room ≡ 4 }
    ensures { result.0 ≡ record seat { put = result.0.put } }
{
    let mut seat = seat;
    seat.put(one);
    let came = wait_for(taken, 1);
    seat.put(other);
    (seat, came)
}

/// Polls until a packet of endpoint 0 was taken, and tells how many were.
fn poll_for_one(desk: Desk, taken: &AtomicUsize) -> Desk
    requires { length desk ≡ 2 }
    ensures { HavePolled desk result }
{
    let mut desk = desk;
    for _ in 0..TURNS {
        desk.poll(0);
        let count = desk.taken(0);
        taken.store(count, Ordering::SeqCst);
        if count > 0 {
            break;
        }
        thread::yield_now();
    }
    desk
}

fn meet<R: Abort + Threads + Sync>(rt: &R, alloc: Global) -> Result<(), Fail> {
    let (desk, first, second) = open_for_two(rt, alloc)?;
    let one = Packet::of(alloc, &RESET)?;
    let other = Packet::of(alloc, &REQUEST)?;
    let taken = AtomicUsize::new(0);
    let ((first, came), mut desk) = thread::join(
        rt,
        || -> (Seat, bool)
            requires { (first.put ≡ []) × (first.room ≡ 4) }
            ensures { result.0 ≡ record first { put = result.0.put } }
        { send_both(first, one, other, &taken) },
        || -> Desk
            requires { length desk ≡ 2 }
            ensures { HavePolled desk result }
        { poll_for_one(desk, &taken) },
    );
    assert!(rt; came, "the desk took nothing");
    close_both(&mut desk, first, second);
    check_answers(rt, &desk, 0, &[0, 0]);
    check_answers(rt, &desk, 1, &[]);
    check_record(rt, alloc, &mut desk)?;
    Ok(())
}

// A thread puts its second packet once its first was taken: a desk that takes nothing before it closes the seat keeps it waiting.
#[test]
fn a_poll_takes_what_was_put(rt: HostRuntime) -> Result<(), Fail> {
    meet(&rt, rt.alloc())
}
