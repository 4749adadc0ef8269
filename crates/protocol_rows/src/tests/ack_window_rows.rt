//! What no clause says: worked windows of both versions, and a long run of both windows beside a plain program.
ghost use Rattle.std.specs.Prelude.{◌^◌, ◌<◌};

use ack_window::{SendWindow, TakeWindow, Taken};
use arrayvec::ArrayVec;
use std::alloc::Global;
use std::process::Abort;
use std::test::Fail;

mod line;
mod plain;

#[test]
fn agrees_with_a_plain_program(rt: HostRuntime) -> Result<(), Fail> {
    agree(&rt, rt.alloc(), 1)
}

#[test]
fn agrees_with_a_plain_program_in_the_second_version(rt: HostRuntime) -> Result<(), Fail> {
    agree(&rt, rt.alloc(), 2)
}

/// Plays a line of this version, and sees that each thing that can happen did.
fn agree(rt: &impl Abort, alloc: Global, version: u8) -> Result<(), Fail> {
    let mut line = line::Line::open(alloc, version)?;
    for round in 0..100_000 {
        line.send(rt, round)?;
        line.arrive(rt, round);
        line.acknowledge(rt, round)?;
    }
    let seen = line.seen;
    assert!(rt; seen.sent > 60_000, "{seen:?}");
    assert!(rt;
        seen.blocked > 0 && seen.fresh > 0 && seen.repeats > 0 && seen.old > 0,
        "{seen:?}"
    );
    assert!(rt;
        seen.acknowledged > 0 && seen.lost > 0 && seen.passed_over > 0,
        "{seen:?}"
    );
    Ok(())
}

// What is answered to numbers that come late, early and again, and the acknowledgement of them; then the last bit of a mask.
#[test]
fn worked_arrivals(rt: HostRuntime) {
    let verdicts = [
        Taken::Fresh,
        Taken::Fresh,
        Taken::Fresh,
        Taken::Old,
        Taken::Fresh,
        Taken::Repeat,
    ];
    for (version, early, mask, last, bit) in [
        (1, 8, 0b110_1000, 65, 1 << 63),
        (2, 20, 0b110_1000 << 12, 129, 1 << 127),
    ] {
        let mut window = TakeWindow::new(version);
        for (at, number) in [1, 2, early, 3, 4, early].into_iter().enumerate() {
            assert_eq!(rt; Some(&window.take(number)), verdicts.get(at), "{number}");
        }
        assert_eq!(rt; window.ack(), (early, mask));
        let mut window = TakeWindow::new(version);
        assert_eq!(rt; window.take(1), Taken::Fresh);
        assert_eq!(rt; window.take(last), Taken::Fresh);
        assert_eq!(rt; window.ack(), (last, bit));
    }
}

/// A window of this version that has sent so many numbers, or as many as it may.
fn sent(alloc: Global, version: u8, count: u32) -> Result<SendWindow<u32>, Fail>
    requires { count < 2 ^ 31 }
{
    let mut window = SendWindow::open(alloc, version)?;
    for round in 0..count {
        if window.may_send() {
            window.push(round);
        }
    }
    Ok(window)
}

/// Reads an acknowledgement, which decides just these.
fn reads(rt: &impl Abort, window: &mut SendWindow<u32>, ack: (u32, u128), decided: &[(u32, bool)]) {
    let mut found = ArrayVec::new();
    window.read_ack(ack.0, ack.1, &mut found);
    let given = found.as_slice().iter().map(|it| (it.number, it.lost));
    assert!(rt; given.eq(decided.iter().copied()), "{ack:?}");
}

// With none decided one number more than the span may be sent, and the next once the first is acknowledged. Where the last of
// some numbers is shown alone, those are lost that are more than the reorder window below it.
#[test]
fn worked_readings(rt: HostRuntime) -> Result<(), Fail> {
    for (version, most, early) in [(1, 65, 8), (2, 129, 20)] {
        let mut window = sent(rt.alloc(), version, most + 1)?;
        assert!(rt; !window.may_send());
        assert_eq!(rt; window.newest().0, most);
        reads(&rt, &mut window, (1, 0), &[(1, false)]);
        assert!(rt; window.may_send());
        let mut window = sent(rt.alloc(), version, early)?;
        reads(
            &rt,
            &mut window,
            (early, 0),
            &[(1, true), (2, true), (3, true), (early, false)],
        );
    }
    Ok(())
}
