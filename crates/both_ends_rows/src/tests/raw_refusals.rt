//! Raw packets to an endpoint's rounds, and the numbers of their refusals.
use arrayvec::ArrayVec;
use fcp_framing::Told;
use greedy_rules::{Batch, Entry, Flow, Limits};
use lane_rounds::{AskList, Events, LaneRounds, RawList, RefusedList};
use loss_world::Fate;
use std::test::Fail;

const REQUEST_OF_LATER_EPOCH: [u8; 26] = [
    1, 1, 0, 1, 0, 0, 0, 2, 0, 0, 0, 1, 0, 0, 0, 0, 0, 0, 0, 0, 0, 0, 0, 0, 0, 0,
];

const TOO_MUCH: [u8; 32] = [
    1, 1, 0, 1, 0, 0, 0, 1, 0, 0, 0, 9, 0, 0, 0, 0, 0, 0, 0, 0, 0, 0, 0, 0, 0, 1, 0, 0, 0x0b, 0xeb,
    0xc2, 0x01,
];

const WRONG_MASK: [u8; 26] = [
    1, 1, 0, 1, 0, 0, 0, 1, 0, 0, 0, 9, 0, 0, 0, 0, 0, 0, 0, 0, 0, 0, 0, 1, 0, 0,
];

const THE_MOST: [u8; 32] = [
    1, 1, 0, 1, 0, 0, 0, 1, 0, 0, 0, 9, 0, 0, 0, 0, 0, 0, 0, 0, 0, 0, 0, 0, 0, 1, 0, 0, 0x0b, 0xeb,
    0xc2, 0x00,
];

// Endpoint 1 of two: its agent's reset arrives first, and then these.
#[test]
fn raw_packets_are_refused_by_number(rt: HostRuntime) -> Result<(), Fail> {
    let alloc = rt.alloc();
    let mut raw = RawList::new(alloc);
    raw.push(0, &[1, 2])?;
    raw.push(1, &[2, 2, 0, 1, 0, 0, 0, 1])?;
    raw.push(2, &[1, 4, 0, 1, 0, 0, 0, 1])?;
    raw.push(3, &[1, 2, 0, 2, 0, 0, 0, 1])?;
    raw.push(4, &[1, 2, 0, 1, 0, 0, 0, 1, 0])?;
    raw.push(5, &[1, 2, 0, 1, 0, 0, 0, 0])?;
    raw.push(6, &REQUEST_OF_LATER_EPOCH)?;
    raw.push(7, &TOO_MUCH)?;
    raw.push(8, &WRONG_MASK)?;
    raw.push(9, &THE_MOST)?;
    let events = Events {
        boots: 0,
        version: 1,
        asks: AskList::new(alloc),
        up: None,
        down: None,
        raw,
    };
    let mut rounds = LaneRounds::open(alloc, 1, 2, 1, 1)?;
    let mut batch = Batch::with_limits(alloc, Limits { hosts: 2, cores: 2 });
    let mut sent = ArrayVec::new();
    let mut refused = RefusedList::new(alloc);
    rounds.round(
        0,
        &events,
        &ArrayVec::new(),
        &mut batch,
        &mut sent,
        &mut refused,
    )?;
    let numbers: [(u32, u8); 9] = [
        (0, 1),
        (1, 26),
        (2, 3),
        (3, 4),
        (4, 10),
        (5, 11),
        (6, 21),
        (7, 8),
        (8, 9),
    ];
    assert_eq!(rt; refused.len(), numbers.len());
    for (at, number) in numbers.iter().enumerate() {
        assert_eq!(rt; refused.get(at), *number);
    }
    let flow = Flow { src: 1, dst: 0 };
    let entry = Entry {
        flow,
        opens: true,
        clear: false,
        add: 200_000_000,
    };
    assert_eq!(rt; (batch.len(), batch.find(flow)), (1, Some(entry)));
    assert_eq!(rt;
        rounds.count(0).map(|count| count.pending()),
        Some(200_000_000)
    );
    Ok(())
}
