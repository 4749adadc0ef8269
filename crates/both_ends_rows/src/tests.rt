ghost use Rattle.std.specs.Prelude.{◌≡◌};
ghost use Rattle.both_ends_rows.specs.Callers.{told_of_one};

use arrayvec::ArrayVec;
use endpoint_agent::Sent;
use fcp_framing::Told;
use greedy_rules::{Batch, Flow};
use loss_world::Fate;
use std::alloc::{AllocError, Global};

mod agent_calls;
mod lane_calls;
mod raw_refusals;
mod rounds;

/// What comes from outside.
#[derive(Clone, Copy)]
enum Comes {
    Boots(u8),
    Asks(u32),
    Up(Fate),
    Down(Fate),
}

/// What comes in a round. The version is that of a boot, 0 where there is none.
#[derive(Clone, Copy)]
struct Outside {
    version: u8,
    ask: u32,
    up: Option<Fate>,
    down: Option<Fate>,
}

const QUIET: Outside = Outside {
    version: 0,
    ask: 0,
    up: None,
    down: None,
};

/// Packets of one end that come to the other, one in each of the rounds from one to another.
#[derive(Clone, Copy)]
struct Packets {
    from: u32,
    to: u32,
    /// The round in which the first was made, its number, and the greatest number that it acknowledges. Each that follows has one
    /// more of all three.
    made: u32,
    number: u32,
    highest: u32,
    /// All numbers from this one on are acknowledged, but for one, 0 for none.
    since: u32,
    without: u32,
    epoch: u32,
    /// The number of the refusal, 0 where they are taken.
    refused: u8,
}

/// The first allocation of an endpoint's first boot.
const ALLOCATION: Packets = Packets {
    from: 1,
    to: 1,
    made: 1,
    number: 1,
    highest: 0,
    since: 1,
    without: 0,
    epoch: 1,
    refused: 0,
};

/// The first request.
const REQUEST: Packets = Packets {
    highest: 1,
    ..ALLOCATION
};

/// The third packet of either end, where the third allocation has not come.
const THIRD: Packets = Packets {
    made: 3,
    number: 3,
    highest: 2,
    ..ALLOCATION
};

/// The fourth allocation.
const FOURTH: Packets = Packets {
    from: 4,
    to: 4,
    made: 4,
    number: 4,
    highest: 3,
    ..ALLOCATION
};

/// The fourth request, where the third allocation has not come.
const FOURTH_REQUEST: Packets = Packets {
    highest: 4,
    without: 3,
    ..FOURTH
};

/// What comes in each of the rounds from one to another, how many rounds there are, and what they show of the flow from endpoint 0.
#[derive(Clone, Copy)]
struct Row<'a> {
    comes: &'a [(u32, u32, Comes)],
    rounds: u32,
    /// A round, whether its entry opens, whether it clears, and what it adds.
    entries: &'a [(u32, bool, bool, u32)],
    slots: &'a [u32],
    /// The round of a send, and its slot.
    sent: &'a [(u32, u32)],
    /// Demanded, acknowledged, in flight, pending, lost, sent and missed at the end.
    counts: [u32; 7],
    version: u8,
    /// What comes to the agent, and some of the packets that it makes, each with its round.
    allocations: &'a [Packets],
    up: &'a [(u32, &'a [u8])],
    /// The round of a reset that comes to the lane, and its epoch.
    resets: &'a [(u32, u32)],
    /// What comes to the lane, the totals that are named in requests of some rounds, and some of the packets that it makes.
    requests: &'a [Packets],
    named: &'a [(u32, u32)],
    down: &'a [(u32, &'a [u8])],
}

const ASKED_AT_ONCE: (u32, u32, Comes) = (0, 0, Comes::Asks(1));

const RESET: [u8; 8] = [1, 2, 0, 0, 0, 0, 0, 1];

const FIRST_REQUEST: [u8; 32] = [
    1, 1, 0, 0, 0, 0, 0, 1, 0, 0, 0, 1, 0, 0, 0, 1, 0, 0, 0, 0, 0, 0, 0, 0, 0, 1, 0, 1, 0, 0, 0, 1,
];

/// It tells slot 2.
const THIRD_ALLOCATION: [u8; 34] = [
    1, 3, 0, 0, 0, 0, 0, 1, 0, 0, 0, 3, 0, 0, 0, 2, 0, 0, 0, 0, 0, 0, 0, 1, 0, 0, 0, 1, 0, 1, 0, 0,
    0, 1,
];

/// Where the third allocation has not come.
const EIGHTH_REQUEST: [u8; 26] = [
    1, 1, 0, 0, 0, 0, 0, 1, 0, 0, 0, 8, 0, 0, 0, 8, 0, 0, 0, 0, 0, 0, 0, 0x6f, 0, 0,
];

/// A slot that is told by the allocation of round 3, and sent in.
const SENT: Row<'static> = Row {
    comes: &[ASKED_AT_ONCE],
    rounds: 7,
    entries: &[(1, true, false, 1)],
    slots: &[2],
    sent: &[(5, 2)],
    counts: [1, 1, 0, 0, 0, 1, 0],
    version: 1,
    allocations: &[Packets {
        to: 6,
        ..ALLOCATION
    }],
    up: &[(0, &RESET), (1, &FIRST_REQUEST)],
    resets: &[(0, 1)],
    requests: &[Packets { to: 6, ..REQUEST }],
    named: &[(1, 1)],
    down: &[(3, &THIRD_ALLOCATION)],
};

/// That allocation is found lost in round 8.
const LOST: Row<'static> = Row {
    comes: &[ASKED_AT_ONCE, (3, 3, Comes::Down(Fate::Lose))],
    rounds: 14,
    entries: &[(1, true, false, 1), (8, false, false, 1)],
    slots: &[2, 9],
    sent: &[(12, 9)],
    counts: [1, 1, 0, 0, 1, 1, 0],
    allocations: &[
        Packets {
            to: 2,
            ..ALLOCATION
        },
        Packets { to: 13, ..FOURTH },
    ],
    up: &[(0, &RESET), (1, &FIRST_REQUEST), (8, &EIGHTH_REQUEST)],
    requests: &[
        Packets { to: 2, ..REQUEST },
        Packets {
            from: 3,
            to: 3,
            ..THIRD
        },
        Packets {
            to: 13,
            ..FOURTH_REQUEST
        },
    ],
    ..SENT
};

const ROWS: [Row<'static>; 9] = [
    SENT,
    LOST,
    // Two rounds late is in time.
    Row {
        comes: &[ASKED_AT_ONCE, (3, 3, Comes::Down(Fate::Hold(2)))],
        allocations: &[
            Packets {
                to: 2,
                ..ALLOCATION
            },
            Packets {
                from: 5,
                to: 5,
                ..THIRD
            },
            Packets { to: 6, ..FOURTH },
        ],
        requests: &[
            Packets { to: 2, ..REQUEST },
            Packets {
                from: 3,
                to: 3,
                ..THIRD
            },
            FOURTH_REQUEST,
            Packets {
                from: 5,
                to: 6,
                made: 5,
                number: 5,
                highest: 5,
                ..REQUEST
            },
        ],
        ..SENT
    },
    // Three are not: the slot is missed, and the total grows.
    Row {
        comes: &[ASKED_AT_ONCE, (3, 3, Comes::Down(Fate::Hold(3)))],
        rounds: 12,
        entries: &[(1, true, false, 1), (6, false, false, 1)],
        slots: &[2, 7],
        sent: &[(10, 7)],
        counts: [2, 2, 0, 0, 0, 1, 1],
        allocations: &[
            Packets {
                to: 2,
                ..ALLOCATION
            },
            Packets {
                from: 6,
                to: 6,
                ..THIRD
            },
            Packets { to: 11, ..FOURTH },
        ],
        // The request of round 6 names it.
        up: &[(
            6,
            &[
                1, 1, 0, 0, 0, 0, 0, 1, 0, 0, 0, 6, 0, 0, 0, 6, 0, 0, 0, 0, 0, 0, 0, 0x1f, 0, 1, 0,
                1, 0, 0, 0, 2,
            ],
        )],
        requests: &[
            Packets { to: 2, ..REQUEST },
            Packets {
                from: 3,
                to: 3,
                ..THIRD
            },
            Packets {
                to: 5,
                ..FOURTH_REQUEST
            },
            Packets {
                from: 6,
                to: 11,
                made: 6,
                number: 6,
                highest: 6,
                ..REQUEST
            },
        ],
        named: &[(1, 1), (6, 2)],
        ..SENT
    },
    // What comes twice counts once.
    Row {
        comes: &[
            ASKED_AT_ONCE,
            (1, 1, Comes::Up(Fate::Twice)),
            (3, 3, Comes::Down(Fate::Twice)),
        ],
        allocations: &[
            Packets {
                to: 3,
                ..ALLOCATION
            },
            Packets {
                from: 4,
                to: 4,
                refused: 34,
                ..THIRD
            },
            Packets { to: 6, ..FOURTH },
        ],
        requests: &[
            REQUEST,
            Packets {
                from: 2,
                to: 2,
                refused: 24,
                ..REQUEST
            },
            Packets {
                from: 2,
                to: 6,
                made: 2,
                number: 2,
                highest: 2,
                ..REQUEST
            },
        ],
        ..SENT
    },
    // Six rounds late it is old, as if it were lost.
    Row {
        comes: &[ASKED_AT_ONCE, (3, 3, Comes::Down(Fate::Hold(6)))],
        allocations: &[
            Packets {
                to: 2,
                ..ALLOCATION
            },
            Packets {
                from: 9,
                to: 9,
                refused: 33,
                ..THIRD
            },
            Packets { to: 13, ..FOURTH },
        ],
        ..LOST
    },
    // Both ways are lost for 70 rounds, until neither end has a new number left.
    Row {
        comes: &[
            ASKED_AT_ONCE,
            (3, 72, Comes::Up(Fate::Lose)),
            (3, 72, Comes::Down(Fate::Lose)),
        ],
        rounds: 90,
        entries: &[(1, true, false, 1), (73, false, false, 1)],
        slots: &[2, 74],
        sent: &[(77, 74)],
        allocations: &[
            Packets {
                to: 2,
                ..ALLOCATION
            },
            Packets {
                from: 73,
                to: 73,
                made: 67,
                number: 67,
                highest: 2,
                ..ALLOCATION
            },
            Packets {
                from: 74,
                to: 89,
                made: 74,
                number: 68,
                highest: 67,
                since: 67,
                ..ALLOCATION
            },
        ],
        // The request of round 66 goes again until round 72.
        up: &[
            (66, &LAST_REQUEST),
            (72, &LAST_REQUEST),
            (73, &NEXT_REQUEST),
        ],
        requests: &[
            Packets { to: 2, ..REQUEST },
            Packets {
                from: 73,
                to: 89,
                made: 73,
                number: 67,
                highest: 67,
                since: 67,
                ..REQUEST
            },
        ],
        // The allocation of round 67 goes again until round 73.
        down: &[
            (3, &THIRD_ALLOCATION),
            (67, &LAST_ALLOCATION),
            (73, &LAST_ALLOCATION),
            (74, &NEXT_ALLOCATION),
        ],
        ..LOST
    },
    // A boot with slots on the way, and a request of the first boot that comes after it.
    Row {
        comes: &[
            (0, 0, Comes::Asks(5)),
            (3, 3, Comes::Up(Fate::Hold(3))),
            (4, 4, Comes::Boots(1)),
            (4, 4, Comes::Asks(1)),
        ],
        rounds: 11,
        entries: &[
            (1, true, false, 5),
            (4, false, true, 0),
            (5, false, false, 1),
        ],
        slots: &[2, 3, 4, 6],
        sent: &[(9, 6)],
        counts: [1, 1, 0, 0, 0, 1, 0],
        allocations: &[
            Packets {
                to: 3,
                ..ALLOCATION
            },
            Packets {
                highest: 2,
                refused: 32,
                ..FOURTH
            },
            Packets {
                from: 5,
                to: 10,
                made: 5,
                epoch: 2,
                ..ALLOCATION
            },
        ],
        up: &[(0, &RESET), (4, &[1, 2, 0, 0, 0, 0, 0, 2])],
        resets: &[(0, 1), (4, 2)],
        requests: &[
            Packets { to: 2, ..REQUEST },
            Packets {
                from: 6,
                to: 6,
                highest: 3,
                refused: 22,
                ..THIRD
            },
            Packets {
                from: 5,
                to: 10,
                made: 5,
                epoch: 2,
                ..REQUEST
            },
        ],
        named: &[(1, 5), (5, 1)],
        ..SENT
    },
    // In the second version a number is lost only where 17 greater ones were taken.
    Row {
        comes: &[
            (0, 0, Comes::Boots(2)),
            ASKED_AT_ONCE,
            (3, 3, Comes::Down(Fate::Lose)),
        ],
        rounds: 26,
        entries: &[(1, true, false, 1), (20, false, false, 1)],
        slots: &[2, 21],
        sent: &[(24, 21)],
        version: 2,
        allocations: &[
            Packets {
                to: 2,
                epoch: 2,
                ..ALLOCATION
            },
            Packets {
                to: 25,
                epoch: 2,
                ..FOURTH
            },
        ],
        up: &[(0, &[2, 2, 0, 0, 0, 0, 0, 2])],
        resets: &[(0, 2)],
        requests: &[
            Packets {
                to: 2,
                epoch: 2,
                ..REQUEST
            },
            Packets {
                from: 3,
                to: 3,
                epoch: 2,
                ..THIRD
            },
            Packets {
                to: 25,
                epoch: 2,
                ..FOURTH_REQUEST
            },
        ],
        down: &[],
        ..LOST
    },
];

/// The greatest number that may be sent while the second request is open, and the one after it.
const LAST_REQUEST: [u8; 26] = [
    1, 1, 0, 0, 0, 0, 0, 1, 0, 0, 0, 66, 0, 0, 0, 2, 0, 0, 0, 0, 0, 0, 0, 1, 0, 0,
];

const NEXT_REQUEST: [u8; 26] = [
    1, 1, 0, 0, 0, 0, 0, 1, 0, 0, 0, 67, 0, 0, 0, 67, 0, 0, 0, 0, 0, 0, 0, 0, 0, 0,
];

/// The greatest number that may be sent while the third allocation is open, and the one after it.
const LAST_ALLOCATION: [u8; 30] = [
    1, 3, 0, 0, 0, 0, 0, 1, 0, 0, 0, 67, 0, 0, 0, 2, 0, 0, 0, 0, 0, 0, 0, 1, 0, 0, 0, 65, 0, 0,
];

const NEXT_ALLOCATION: [u8; 30] = [
    1, 3, 0, 0, 0, 0, 0, 1, 0, 0, 0, 68, 0, 0, 0, 67, 0, 0, 0, 0, 0, 0, 0, 0, 0, 0, 0, 72, 0, 0,
];

/// What comes in this round.
fn what_comes(comes: &[(u32, u32, Comes)], round: u32) -> Outside {
    let mut outside = QUIET;
    for (from, to, what) in comes {
        if *from <= round && round <= *to {
            match what {
                Comes::Boots(version) => outside.version = *version,
                Comes::Asks(slots) => outside.ask = *slots,
                Comes::Up(fate) => outside.up = Some(*fate),
                Comes::Down(fate) => outside.down = Some(*fate),
            }
        }
    }
    outside
}

/// The slot of a batch, where it has one.
fn told(dst: u16, one: bool) -> ArrayVec<Told, 64>
    ensures { result.items ≡ told_of_one dst one }
{
    let mut told = ArrayVec::new();
    if one {
        told.push(Told {
            offset: 0,
            core: 0,
            dst,
        });
    }
    told
}

/// What a row has shown so far.
#[derive(Drop)]
struct Shown {
    entries: Vec<(u32, bool, bool, u32)>,
    slots: Vec<u32>,
    sent: Vec<(u32, u32)>,
}

impl Shown {
    fn new(alloc: Global) -> Shown {
        Shown {
            entries: Vec::new(alloc),
            slots: Vec::new(alloc),
            sent: Vec::new(alloc),
        }
    }

    /// Adds a round's batch, and whether it has a slot.
    fn add_batch(&mut self, round: u32, batch: &Batch, has_slot: bool) -> Result<(), AllocError> {
        if let Some(entry) = batch.find(Flow { src: 0, dst: 1 }) {
            self.entries
                .push((round, entry.opens, entry.clear, entry.add))?;
        }
        if has_slot {
            self.slots.push(round.saturating_add(1))?;
        }
        Ok(())
    }

    /// Adds what is sent in a round.
    fn add_sent(&mut self, round: u32, sent: &ArrayVec<Sent, 64>) -> Result<(), AllocError> {
        for now in sent.iter() {
            self.sent.push((round, now.slot))?;
        }
        Ok(())
    }
}

impl Packets {
    /// Whether one comes in this round.
    fn come_in(&self, round: u32) -> bool {
        self.from <= round && round <= self.to
    }
}

/// Whether a packet is the one that is listed for its round, if one is.
fn is_as_listed(listed: &[(u32, &[u8])], round: u32, packet: &[u8]) -> bool {
    for (at, bytes) in listed {
        if *at == round && *bytes != packet {
            return false;
        }
    }
    true
}

/// The allocation that comes in this round. It tells the slot of the batch of two rounds before its own, if there is one; the first
/// of a connection tells none.
fn allocation(
    alloc: Global,
    row: &Row,
    packets: &Packets,
    round: u32,
) -> Result<Vec<u8>, AllocError> {
    let after = round.saturating_sub(packets.from);
    let batch = packets.made.saturating_add(after).saturating_sub(2);
    let mut bytes = Vec::new(alloc);
    put_front(&mut bytes, row.version, 3, packets, after)?;
    bytes.extend_from_slice(&batch.to_be_bytes())?;
    let tells = packets.number.saturating_add(after) > 1
        && row.slots.contains(&batch.saturating_add(1));
    let told: &[u8] = if tells { &[0, 1, 0, 0, 0, 1] } else { &[0, 0] };
    bytes.extend_from_slice(told)?;
    Ok(bytes)
}

/// The request that comes in this round.
fn request(alloc: Global, row: &Row, packets: &Packets, round: u32) -> Result<Vec<u8>, AllocError> {
    let after = round.saturating_sub(packets.from);
    let mut bytes = Vec::new(alloc);
    put_front(&mut bytes, row.version, 1, packets, after)?;
    match total_named(row.named, packets.made.saturating_add(after)) {
        Some(total) => {
            bytes.extend_from_slice(&[0, 1, 0, 1])?;
            bytes.extend_from_slice(&total.to_be_bytes())?;
        }
        None => bytes.extend_from_slice(&[0, 0])?,
    }
    Ok(bytes)
}

/// The total that the request names that was made in this round.
fn total_named(named: &[(u32, u32)], made: u32) -> Option<u32> {
    for (at, total) in named {
        if *at == made {
            return Some(*total);
        }
    }
    None
}

/// What a packet to or from endpoint 0 begins with, up to its acknowledgement.
fn put_front(
    bytes: &mut Vec<u8>,
    version: u8,
    kind: u8,
    packets: &Packets,
    after: u32,
) -> Result<(), AllocError> {
    let highest = packets.highest.saturating_add(after);
    bytes.extend_from_slice(&[version, kind, 0, 0])?;
    bytes.extend_from_slice(&packets.epoch.to_be_bytes())?;
    bytes.extend_from_slice(&packets.number.saturating_add(after).to_be_bytes())?;
    bytes.extend_from_slice(&highest.to_be_bytes())?;
    let mask = mask(highest, packets.since, packets.without).to_be_bytes();
    let unused = if version == 2 { 0 } else { 8 };
    bytes.extend_from_slice(&mask[unused..])
}

/// The mask that shows all numbers from one up to the highest, but for one.
fn mask(highest: u32, since: u32, without: u32) -> u128 {
    let mut mask = 0;
    for number in since..highest {
        mask |= bit(highest, number, without);
    }
    mask
}

fn bit(highest: u32, number: u32, without: u32) -> u128 {
    let place = highest.saturating_sub(number).saturating_sub(1);
    if number == without || place >= 128 {
        0
    } else {
        1 << place
    }
}

/// Bytes of endpoint 1 of two in its first boot that are refused, each with the number of its refusal.
const REFUSED: [(&[u8], u8); 9] = [
    (&[1, 2], 1),
    (&[2, 2, 0, 1, 0, 0, 0, 1], 26),
    (&[1, 4, 0, 1, 0, 0, 0, 1], 3),
    (&[1, 2, 0, 2, 0, 0, 0, 1], 4),
    (&[1, 2, 0, 1, 0, 0, 0, 1, 0], 10),
    (&[1, 2, 0, 1, 0, 0, 0, 0], 11),
    // A request of a later epoch.
    (
        &[
            1, 1, 0, 1, 0, 0, 0, 2, 0, 0, 0, 1, 0, 0, 0, 0, 0, 0, 0, 0, 0, 0, 0, 0, 0, 0,
        ],
        21,
    ),
    // A total of 200,000,001.
    (
        &[
            1, 1, 0, 1, 0, 0, 0, 1, 0, 0, 0, 9, 0, 0, 0, 0, 0, 0, 0, 0, 0, 0, 0, 0, 0, 1, 0, 0,
            0x0b, 0xeb, 0xc2, 0x01,
        ],
        8,
    ),
    // A mask where no number was taken.
    (
        &[
            1, 1, 0, 1, 0, 0, 0, 1, 0, 0, 0, 9, 0, 0, 0, 0, 0, 0, 0, 0, 0, 0, 0, 1, 0, 0,
        ],
        9,
    ),
];

/// A request that is taken, with a total of 200,000,000.
const TAKEN: [u8; 32] = [
    1, 1, 0, 1, 0, 0, 0, 1, 0, 0, 0, 9, 0, 0, 0, 0, 0, 0, 0, 0, 0, 0, 0, 0, 0, 1, 0, 0, 0x0b, 0xeb,
    0xc2, 0x00,
];
