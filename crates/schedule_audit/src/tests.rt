use crate::scanned::scan_text;
use crate::{AuditRefused, audit, count_lines};
use clos_topology::Net;
use std::alloc::Global;
use std::test::Fail;

// A text of one rack of four hosts, how many lines it has, and its first misplaced one.
const TEXTS: [(&str, u32, Option<u32>); 13] = [
    ("", 0, Some(1)),
    ("end,1\n", 1, None),
    ("end,1", 1, Some(1)),
    (
        "batch,0,0,1,0,1\nslot,1,0,1,-\nflow,0,1,1,1,0\nend,1\n",
        4,
        None,
    ),
    ("batch,0,0,1,0,1\nslot,1,0,1,-\n", 2, Some(3)),
    ("batch,0,0,1,0,1\nbatch,0,0,1,0,1\nend,1\n", 3, Some(2)),
    ("batch,0,0,4,0,1\nend,1\n", 2, Some(1)),
    ("batch,0,0,1,1,1\nend,1\n", 2, Some(1)),
    ("batch,0,0,1,0,206400000\nbatch,1,0,1,1,1\nend,2\n", 3, None),
    (
        "batch,0,0,1,0,206400000\nbatch,1,0,1,0,1\nend,2\n",
        3,
        Some(2),
    ),
    ("batch,1,0,1,0,1\nend,1\n", 2, Some(2)),
    ("end,1\nbatch,5,0,1,0,1\n", 2, Some(1)),
    ("end,1\n\n", 2, Some(2)),
];

#[test]
fn misplaced_lines(rt: HostRuntime) -> Result<(), Fail> {
    let net = Net::new(1, 4, 1)?;
    for (text, lines, misplaced) in TEXTS {
        assert_eq!(rt; count_lines(text.as_bytes()), lines);
        let scanned = scan_text(rt.alloc(), text.as_bytes(), &net)?;
        assert_eq!(rt; scanned.misplaced, misplaced);
    }
    Ok(())
}

// The text of a plan, and whether it is good or which line is bad: as it is, with a link shared, without its last `slot` line, and
// an empty text.
const PLANS: [(&str, (u16, u16, u16), u8, Result<u32, AuditRefused>); 4] = [
    (
        "batch,0,0,1,0,1\nbatch,0,0,2,0,1\nbatch,0,3,1,0,1\nslot,1,0,1,-\nslot,2,0,2,-\nslot,2,3,1,-\nflow,0,1,1,1,0\nflow,0,2,1,1,0\nflow,3,1,1,1,0\nend,1\n",
        (1, 4, 1),
        2,
        Ok(10),
    ),
    (
        "batch,0,0,2,0,1\nbatch,0,1,4,0,1\nbatch,0,2,0,0,1\nbatch,0,3,5,0,1\nslot,1,0,2,0\nslot,1,1,4,0\nslot,1,2,0,0\nslot,1,3,5,1\nflow,0,2,1,1,0\nflow,1,4,1,1,0\nflow,2,0,1,1,0\nflow,3,5,1,1,0\nend,1\n",
        (3, 2, 2),
        1,
        Err(AuditRefused::Bad { line: 6 }),
    ),
    (
        "batch,0,0,1,0,1\nbatch,0,0,2,0,1\nbatch,0,3,1,0,1\nslot,1,0,1,-\nslot,2,0,2,-\nflow,0,1,1,1,0\nflow,0,2,1,1,0\nflow,3,1,1,1,0\nend,1\n",
        (1, 4, 1),
        2,
        Err(AuditRefused::Bad { line: 9 }),
    ),
    ("", (1, 4, 1), 2, Err(AuditRefused::Bad { line: 1 })),
];

// The lines of a replay with a reset, and changes of it: from this line on so many are taken out and these put there, and which line
// is bad then, 0 for none, by a reading of the definitions that knows nothing of this crate. What stays good are changes that no
// definition judges: a `sent`, `count` or `flow` line taken out or moved, and numbers that say what was sent and missed.
const REPLAY: [&str; 10] = [
    "batch,1,0,1,0,5",
    "slot,2,0,1,0",
    "slot,3,0,1,0",
    "batch,4,0,1,1,0",
    "slot,4,0,1,0",
    "batch,5,0,1,0,1",
    "slot,6,0,1,0",
    "sent,6,0,1",
    "count,0,1,1,1,0,0,0,1,0",
    "end,11",
];

const REPLAY_CHANGES: [(usize, usize, &[&str], u32); 73] = [
    (0, 1, &[], 3),
    (0, 1, &["batch,1,0,1,0,5", "batch,1,0,1,0,5"], 2),
    (0, 2, &["slot,2,0,1,0", "batch,1,0,1,0,5"], 0),
    (0, 1, &["batch,2,0,1,0,5"], 2),
    (0, 1, &["batch,1,1,1,0,5"], 1),
    (0, 1, &["batch,1,0,2,0,5"], 1),
    (0, 1, &["batch,1,0,1,1,5"], 1),
    (0, 1, &["batch,1,0,1,0,6"], 0),
    (1, 1, &[], 2),
    (1, 1, &["slot,2,0,1,0", "slot,2,0,1,0"], 3),
    (1, 2, &["slot,3,0,1,0", "slot,2,0,1,0"], 2),
    (1, 1, &["slot,3,0,1,0"], 2),
    (1, 1, &["slot,2,1,1,0"], 2),
    (1, 1, &["slot,2,0,2,0"], 2),
    (1, 1, &["slot,2,0,1,1"], 2),
    (2, 1, &[], 4),
    (2, 1, &["slot,3,0,1,0", "slot,3,0,1,0"], 4),
    (2, 2, &["batch,4,0,1,1,0", "slot,3,0,1,0"], 0),
    (2, 1, &["slot,4,0,1,0"], 3),
    (2, 1, &["slot,3,1,1,0"], 3),
    (2, 1, &["slot,3,0,2,0"], 3),
    (2, 1, &["slot,3,0,1,1"], 3),
    (3, 1, &[], 6),
    (3, 1, &["batch,4,0,1,1,0", "batch,4,0,1,1,0"], 5),
    (3, 2, &["slot,4,0,1,0", "batch,4,0,1,1,0"], 0),
    (3, 1, &["batch,5,0,1,1,0"], 6),
    (3, 1, &["batch,4,1,1,1,0"], 4),
    (3, 1, &["batch,4,0,2,1,0"], 4),
    (3, 1, &["batch,4,0,1,2,0"], 4),
    (3, 1, &["batch,4,0,1,1,1"], 7),
    (4, 1, &[], 6),
    (4, 1, &["slot,4,0,1,0", "slot,4,0,1,0"], 6),
    (4, 2, &["batch,5,0,1,0,1", "slot,4,0,1,0"], 0),
    (4, 1, &["slot,5,0,1,0"], 5),
    (4, 1, &["slot,4,1,1,0"], 5),
    (4, 1, &["slot,4,0,2,0"], 5),
    (4, 1, &["slot,4,0,1,1"], 5),
    (5, 1, &[], 6),
    (5, 1, &["batch,5,0,1,0,1", "batch,5,0,1,0,1"], 7),
    (5, 2, &["slot,6,0,1,0", "batch,5,0,1,0,1"], 0),
    (5, 1, &["batch,6,0,1,0,1"], 7),
    (5, 1, &["batch,5,1,1,0,1"], 6),
    (5, 1, &["batch,5,0,2,0,1"], 6),
    (5, 1, &["batch,5,0,1,1,1"], 0),
    (5, 1, &["batch,5,0,1,0,2"], 9),
    (6, 1, &[], 9),
    (6, 1, &["slot,6,0,1,0", "slot,6,0,1,0"], 8),
    (6, 2, &["sent,6,0,1", "slot,6,0,1,0"], 0),
    (6, 1, &["slot,7,0,1,0"], 7),
    (6, 1, &["slot,6,1,1,0"], 7),
    (6, 1, &["slot,6,0,2,0"], 7),
    (6, 1, &["slot,6,0,1,1"], 7),
    (7, 1, &[], 0),
    (7, 1, &["sent,6,0,1", "sent,6,0,1"], 9),
    (7, 2, &["count,0,1,1,1,0,0,0,1,0", "sent,6,0,1"], 0),
    (7, 1, &["sent,7,0,1"], 8),
    (7, 1, &["sent,6,1,1"], 8),
    (7, 1, &["sent,6,0,2"], 8),
    (8, 1, &[], 0),
    (
        8,
        1,
        &["count,0,1,1,1,0,0,0,1,0", "count,0,1,1,1,0,0,0,1,0"],
        0,
    ),
    (8, 2, &["end,11", "count,0,1,1,1,0,0,0,1,0"], 10),
    (8, 1, &["count,1,1,1,1,0,0,0,1,0"], 9),
    (8, 1, &["count,0,2,1,1,0,0,0,1,0"], 9),
    (8, 1, &["count,0,1,2,1,0,0,0,1,0"], 9),
    (8, 1, &["count,0,1,1,2,0,0,0,1,0"], 9),
    (8, 1, &["count,0,1,1,1,1,0,0,1,0"], 9),
    (8, 1, &["count,0,1,1,1,0,1,0,1,0"], 9),
    (8, 1, &["count,0,1,1,1,0,0,1,1,0"], 9),
    (8, 1, &["count,0,1,1,1,0,0,0,2,0"], 0),
    (8, 1, &["count,0,1,1,1,0,0,0,1,1"], 0),
    (9, 1, &[], 10),
    (9, 1, &["end,11", "end,11"], 11),
    (9, 1, &["end,12"], 0),
];

// And of a plan.
const PLAN: [&str; 16] = [
    "batch,0,0,1,0,2",
    "batch,0,1,4,0,2",
    "batch,0,2,3,0,1",
    "slot,1,0,1,-",
    "slot,1,1,4,0",
    "slot,1,2,3,1",
    "slot,2,0,1,-",
    "slot,2,1,4,0",
    "batch,1,5,0,0,2",
    "slot,3,5,0,0",
    "slot,4,5,0,0",
    "flow,0,1,2,2,0",
    "flow,1,4,2,2,0",
    "flow,2,3,1,1,0",
    "flow,5,0,2,2,0",
    "end,2",
];

const PLAN_CHANGES: [(usize, usize, &[&str], u32); 116] = [
    (0, 1, &[], 3),
    (0, 1, &["batch,0,0,1,0,2", "batch,0,0,1,0,2"], 2),
    (0, 2, &["batch,0,1,4,0,2", "batch,0,0,1,0,2"], 2),
    (0, 1, &["batch,1,0,1,0,2"], 2),
    (0, 1, &["batch,0,1,1,0,2"], 1),
    (0, 1, &["batch,0,0,2,0,2"], 4),
    (0, 1, &["batch,0,0,1,1,2"], 1),
    (0, 1, &["batch,0,0,1,0,3"], 10),
    (1, 1, &[], 4),
    (1, 1, &["batch,0,1,4,0,2", "batch,0,1,4,0,2"], 3),
    (1, 2, &["batch,0,2,3,0,1", "batch,0,1,4,0,2"], 3),
    (1, 1, &["batch,1,1,4,0,2"], 3),
    (1, 1, &["batch,0,2,4,0,2"], 3),
    (1, 1, &["batch,0,1,5,0,2"], 5),
    (1, 1, &["batch,0,1,4,1,2"], 2),
    (1, 1, &["batch,0,1,4,0,3"], 10),
    (2, 1, &[], 5),
    (2, 1, &["batch,0,2,3,0,1", "batch,0,2,3,0,1"], 4),
    (2, 2, &["slot,1,0,1,-", "batch,0,2,3,0,1"], 0),
    (2, 1, &["batch,1,2,3,0,1"], 6),
    (2, 1, &["batch,0,3,3,0,1"], 3),
    (2, 1, &["batch,0,2,4,0,1"], 6),
    (2, 1, &["batch,0,2,3,1,1"], 3),
    (2, 1, &["batch,0,2,3,0,2"], 10),
    (3, 1, &[], 4),
    (3, 1, &["slot,1,0,1,-", "slot,1,0,1,-"], 5),
    (3, 2, &["slot,1,1,4,0", "slot,1,0,1,-"], 4),
    (3, 1, &["slot,2,0,1,-"], 4),
    (3, 1, &["slot,1,1,1,-"], 4),
    (3, 1, &["slot,1,0,2,-"], 4),
    (3, 1, &["slot,1,0,1,0"], 4),
    (4, 1, &[], 5),
    (4, 1, &["slot,1,1,4,0", "slot,1,1,4,0"], 6),
    (4, 2, &["slot,1,2,3,1", "slot,1,1,4,0"], 5),
    (4, 1, &["slot,2,1,4,0"], 5),
    (4, 1, &["slot,1,2,4,0"], 5),
    (4, 1, &["slot,1,1,5,0"], 5),
    (4, 1, &["slot,1,1,4,1"], 6),
    (5, 1, &[], 6),
    (5, 1, &["slot,1,2,3,1", "slot,1,2,3,1"], 7),
    (5, 2, &["slot,2,0,1,-", "slot,1,2,3,1"], 6),
    (5, 1, &["slot,2,2,3,1"], 6),
    (5, 1, &["slot,1,3,3,1"], 6),
    (5, 1, &["slot,1,2,4,1"], 6),
    (5, 1, &["slot,1,2,3,2"], 0),
    (6, 1, &[], 7),
    (6, 1, &["slot,2,0,1,-", "slot,2,0,1,-"], 8),
    (6, 2, &["slot,2,1,4,0", "slot,2,0,1,-"], 7),
    (6, 1, &["slot,3,0,1,-"], 7),
    (6, 1, &["slot,2,1,1,-"], 7),
    (6, 1, &["slot,2,0,2,-"], 7),
    (6, 1, &["slot,2,0,1,0"], 7),
    (7, 1, &[], 9),
    (7, 1, &["slot,2,1,4,0", "slot,2,1,4,0"], 9),
    (7, 2, &["batch,1,5,0,0,2", "slot,2,1,4,0"], 0),
    (7, 1, &["slot,3,1,4,0"], 8),
    (7, 1, &["slot,2,2,4,0"], 8),
    (7, 1, &["slot,2,1,5,0"], 8),
    (7, 1, &["slot,2,1,4,1"], 0),
    (8, 1, &[], 9),
    (8, 1, &["batch,1,5,0,0,2", "batch,1,5,0,0,2"], 10),
    (8, 2, &["slot,3,5,0,0", "batch,1,5,0,0,2"], 0),
    (8, 1, &["batch,2,5,0,0,2"], 16),
    (8, 1, &["batch,1,6,0,0,2"], 9),
    (8, 1, &["batch,1,5,1,0,2"], 10),
    (8, 1, &["batch,1,5,0,1,2"], 9),
    (8, 1, &["batch,1,5,0,0,3"], 15),
    (9, 1, &[], 10),
    (9, 1, &["slot,3,5,0,0", "slot,3,5,0,0"], 11),
    (9, 2, &["slot,4,5,0,0", "slot,3,5,0,0"], 10),
    (9, 1, &["slot,4,5,0,0"], 10),
    (9, 1, &["slot,3,6,0,0"], 10),
    (9, 1, &["slot,3,5,1,0"], 10),
    (9, 1, &["slot,3,5,0,1"], 0),
    (10, 1, &[], 15),
    (10, 1, &["slot,4,5,0,0", "slot,4,5,0,0"], 12),
    (10, 2, &["flow,0,1,2,2,0", "slot,4,5,0,0"], 0),
    (10, 1, &["slot,5,5,0,0"], 11),
    (10, 1, &["slot,4,6,0,0"], 11),
    (10, 1, &["slot,4,5,1,0"], 11),
    (10, 1, &["slot,4,5,0,1"], 0),
    (11, 1, &[], 0),
    (11, 1, &["flow,0,1,2,2,0", "flow,0,1,2,2,0"], 0),
    (11, 2, &["flow,1,4,2,2,0", "flow,0,1,2,2,0"], 0),
    (11, 1, &["flow,1,1,2,2,0"], 12),
    (11, 1, &["flow,0,2,2,2,0"], 12),
    (11, 1, &["flow,0,1,3,2,0"], 12),
    (11, 1, &["flow,0,1,2,3,0"], 12),
    (11, 1, &["flow,0,1,2,2,1"], 12),
    (12, 1, &[], 0),
    (12, 1, &["flow,1,4,2,2,0", "flow,1,4,2,2,0"], 0),
    (12, 2, &["flow,2,3,1,1,0", "flow,1,4,2,2,0"], 0),
    (12, 1, &["flow,2,4,2,2,0"], 13),
    (12, 1, &["flow,1,5,2,2,0"], 13),
    (12, 1, &["flow,1,4,3,2,0"], 13),
    (12, 1, &["flow,1,4,2,3,0"], 13),
    (12, 1, &["flow,1,4,2,2,1"], 13),
    (13, 1, &[], 0),
    (13, 1, &["flow,2,3,1,1,0", "flow,2,3,1,1,0"], 0),
    (13, 2, &["flow,5,0,2,2,0", "flow,2,3,1,1,0"], 0),
    (13, 1, &["flow,3,3,1,1,0"], 14),
    (13, 1, &["flow,2,4,1,1,0"], 14),
    (13, 1, &["flow,2,3,2,1,0"], 14),
    (13, 1, &["flow,2,3,1,2,0"], 14),
    (13, 1, &["flow,2,3,1,1,1"], 14),
    (14, 1, &[], 0),
    (14, 1, &["flow,5,0,2,2,0", "flow,5,0,2,2,0"], 0),
    (14, 2, &["end,2", "flow,5,0,2,2,0"], 16),
    (14, 1, &["flow,6,0,2,2,0"], 15),
    (14, 1, &["flow,5,1,2,2,0"], 15),
    (14, 1, &["flow,5,0,3,2,0"], 15),
    (14, 1, &["flow,5,0,2,3,0"], 15),
    (14, 1, &["flow,5,0,2,2,1"], 15),
    (15, 1, &[], 16),
    (15, 1, &["end,2", "end,2"], 17),
    (15, 1, &["end,3"], 0),
];

/// The audit of a text, which is short, with batches of at most 64 slots.
fn audited(alloc: Global, text: &[u8], net: Net, b: u8) -> Result<u32, AuditRefused> {
    if text.len() > 67_108_864 || b > 64 {
        return Err(AuditRefused::Memory);
    }
    audit(alloc, text, net, b)
}

fn push_line(text: &mut Vec<u8>, line: &str) -> Result<(), Fail> {
    text.extend_from_slice(line.as_bytes())?;
    text.push(b'\n')?;
    Ok(())
}

/// The lines with some of them taken out and others put there.
fn changed(
    alloc: Global,
    lines: &[&str],
    at: usize,
    count: usize,
    there: &[&str],
) -> Result<Vec<u8>, Fail> {
    let mut text = Vec::new(alloc);
    for (i, line) in lines.iter().enumerate() {
        if i == at {
            for new in there {
                push_line(&mut text, new)?;
            }
        }
        if i < at || i - at >= count {
            push_line(&mut text, line)?;
        }
    }
    Ok(text)
}

/// The bad line of a text, 0 for none.
fn bad_line(alloc: Global, text: &[u8], net: Net, b: u8) -> Result<u32, Fail> {
    match audited(alloc, text, net, b) {
        Ok(_) => Ok(0),
        Err(AuditRefused::Bad { line }) => Ok(line),
        Err(AuditRefused::Memory) => Ok(u32::MAX),
    }
}

#[test]
fn plans_are_audited(rt: HostRuntime) -> Result<(), Fail> {
    for (text, (racks, hosts, cores), b, answer) in PLANS {
        let net = Net::new(racks, hosts, cores)?;
        assert_eq!(rt; audited(rt.alloc(), text.as_bytes(), net, b), answer);
    }
    Ok(())
}

#[test]
fn changes_of_a_replay(rt: HostRuntime) -> Result<(), Fail> {
    let net = Net::new(2, 1, 1)?;
    let whole = changed(rt.alloc(), &REPLAY, 0, 0, &[])?;
    assert_eq!(rt; audited(rt.alloc(), &whole, net, 1), Ok(10));
    for (at, count, there, bad) in REPLAY_CHANGES {
        let text = changed(rt.alloc(), &REPLAY, at, count, there)?;
        assert_eq!(rt; bad_line(rt.alloc(), &text, net, 1)?, bad);
    }
    Ok(())
}

#[test]
fn changes_of_a_plan(rt: HostRuntime) -> Result<(), Fail> {
    let net = Net::new(2, 3, 3)?;
    let whole = changed(rt.alloc(), &PLAN, 0, 0, &[])?;
    assert_eq!(rt; audited(rt.alloc(), &whole, net, 2), Ok(16));
    for (at, count, there, bad) in PLAN_CHANGES {
        let text = changed(rt.alloc(), &PLAN, at, count, there)?;
        assert_eq!(rt; bad_line(rt.alloc(), &text, net, 2)?, bad);
    }
    Ok(())
}
