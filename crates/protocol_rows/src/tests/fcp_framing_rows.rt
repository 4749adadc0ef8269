use fcp_framing::{
    Demand, Down, FrameRefused, Told, Up, decode_down, decode_up, encode_alloc, encode_req,
    encode_reset,
};
use std::process::Abort;

// An endpoint 0 that begins epoch 1, or epoch 2 in version 2.
const RESETS: [[u8; 8]; 2] = [[1, 2, 0, 0, 0, 0, 0, 1], [2, 2, 0, 0, 0, 0, 0, 2]];

// The first request of endpoint 0, which asks for one slot to endpoint 1.
const REQUEST: [u8; 32] = [
    1, 1, 0, 0, 0, 0, 0, 1, 0, 0, 0, 1, 0, 0, 0, 1, 0, 0, 0, 0, 0, 0, 0, 0, 0, 1, 0, 1, 0, 0, 0, 1,
];

const REQUEST_2: [u8; 40] = [
    2, 1, 0, 0, 0, 0, 0, 1, 0, 0, 0, 1, 0, 0, 0, 1, 0, 0, 0, 0, 0, 0, 0, 0, 0, 0, 0, 0, 0, 0, 0, 0,
    0, 1, 0, 1, 0, 0, 0, 1,
];

// The eighth, which names nothing. Of the allocations below 8 it has seen all but 3.
const REQUEST_WITH_GAP: [u8; 26] = [
    1, 1, 0, 0, 0, 0, 0, 1, 0, 0, 0, 8, 0, 0, 0, 8, 0, 0, 0, 0, 0, 0, 0, 0x6f, 0, 0,
];

// Of the allocations below 130 it has seen 2 and all above 65 but 126.
const REQUEST_WITH_GAP_2: [u8; 34] = [
    2, 1, 0, 0, 0, 0, 0, 1, 0, 0, 0, 8, 0, 0, 0, 130, 0x80, 0, 0, 0, 0, 0, 0, 0, 0xff, 0xff, 0xff,
    0xff, 0xff, 0xff, 0xff, 0xf7, 0, 0,
];

// The third allocation to endpoint 0, of batch 1: its first slot goes to endpoint 1 by core 0.
const ALLOCATION: [u8; 34] = [
    1, 3, 0, 0, 0, 0, 0, 1, 0, 0, 0, 3, 0, 0, 0, 2, 0, 0, 0, 0, 0, 0, 0, 1, 0, 0, 0, 1, 0, 1, 0, 0,
    0, 1,
];

const ALLOCATION_2: [u8; 42] = [
    2, 3, 0, 0, 0, 0, 0, 1, 0, 0, 0, 3, 0, 0, 0, 2, 0, 0, 0, 0, 0, 0, 0, 0, 0, 0, 0, 0, 0, 0, 0, 1,
    0, 0, 0, 1, 0, 1, 0, 0, 0, 1,
];

#[test]
fn resets(rt: HostRuntime) {
    let mut first = [7; 2048];
    let mut second = [7; 2048];
    assert_eq!(rt; encode_reset(1, 0, 1, &mut first), 8);
    assert_eq!(rt; encode_reset(2, 0, 2, &mut second), 8);
    let mut up = Up::default();
    for (bytes, version, buf) in [(&RESETS[0], 1, &first), (&RESETS[1], 2, &second)] {
        assert!(rt; buf.starts_with(bytes));
        assert_eq!(rt; buf[8], 7);
        assert_eq!(rt; decode_up(bytes, 2, &mut up), Ok(()));
        assert!(rt; up.reset);
        assert_eq!(rt;
            (up.version, up.src, up.epoch, up.seq, up.high, up.mask),
            (version, 0, u32::from(version), 0, 0, 0)
        );
        assert!(rt; up.demands.is_empty());
    }
}

#[test]
fn requests(rt: HostRuntime) {
    let mut up = Up::default();
    let mut buf = [7; 2048];
    let one = [Demand { dst: 1, total: 1 }];
    let cases: [(&[u8], u8, u32, u32, u128, &[Demand]); 4] = [
        (&REQUEST, 1, 1, 1, 0, &one),
        (&REQUEST_2, 2, 1, 1, 0, &one),
        (&REQUEST_WITH_GAP, 1, 8, 8, 0b110_1111, &[]),
        (
            &REQUEST_WITH_GAP_2,
            2,
            8,
            130,
            0x8000_0000_0000_0000_ffff_ffff_ffff_fff7,
            &[],
        ),
    ];
    for (bytes, version, seq, high, mask, demands) in cases {
        let Ok(()) = decode_up(bytes, 2, &mut up) else {
            panic!(rt; "{bytes:?}")
        };
        assert!(rt; !up.reset);
        assert_eq!(rt;
            (up.version, up.src, up.epoch, up.seq, up.high, up.mask),
            (version, 0, 1, seq, high, mask)
        );
        assert_eq!(rt; up.demands.as_slice(), demands);
        assert_eq!(rt; encode_req(&up, &mut buf), bytes.len());
        assert!(rt; buf.starts_with(bytes));
        assert_eq!(rt; buf[40], 7);
    }
}

#[test]
fn allocations(rt: HostRuntime) {
    let mut down = Down::default();
    let mut buf = [7; 2048];
    let cases: [(&[u8], u8); 2] = [(&ALLOCATION, 1), (&ALLOCATION_2, 2)];
    for (bytes, version) in cases {
        let Ok(()) = decode_down(bytes, 2, 1, &mut down) else {
            panic!(rt; "{bytes:?}")
        };
        assert_eq!(rt;
            (
                down.version,
                down.dst,
                down.epoch,
                down.seq,
                down.high,
                down.mask,
                down.batch
            ),
            (version, 0, 1, 3, 2, 1, 1)
        );
        assert_eq!(rt;
            down.told.as_slice(),
            [Told {
                offset: 0,
                core: 0,
                dst: 1
            }]
            .as_slice()
        );
        assert_eq!(rt; encode_alloc(&down, &mut buf), bytes.len());
        assert!(rt; buf.starts_with(bytes));
        assert_eq!(rt; buf[42], 7);
    }
}

// The packet with two of its bytes changed. A place from the mask's end on is that of version 1, and so is the mask's last byte.
fn changed(rt: &impl Abort, packet: &[u8], first: (usize, u8), second: (usize, u8)) -> [u8; 46] {
    let mut bytes = [0; 46];
    assert!(rt; 0 < packet.len() && packet.len() <= 46);
    bytes[..packet.len()].copy_from_slice(packet);
    let wider = packet[0] == 2;
    for (at, byte) in [first, second] {
        assert!(rt; at < 38);
        bytes[if wider && at >= 16 { at + 8 } else { at }] = byte;
    }
    bytes
}

#[test]
fn refused_requests(rt: HostRuntime) {
    let mut up = Up::default();
    let packets: [&[u8]; 2] = [&REQUEST, &REQUEST_2];
    for packet in packets {
        for len in 0..packet.len() {
            assert_eq!(rt;
                decode_up(&packet[..len], 2, &mut up),
                Err(FrameRefused::Short),
                "{len} bytes"
            );
        }
        for (first, second, refusal) in [
            ((25, 2), (25, 2), FrameRefused::Short),
            ((24, 255), (25, 255), FrameRefused::Short),
            ((0, 3), (0, 3), FrameRefused::Version),
            ((1, 3), (1, 3), FrameRefused::Kind),
            ((3, 2), (3, 2), FrameRefused::Endpoint),
            ((27, 2), (27, 2), FrameRefused::Endpoint),
            ((27, 0), (27, 0), FrameRefused::SelfFlow),
            ((28, 12), (28, 12), FrameRefused::TooMuch),
            ((23, 1), (23, 1), FrameRefused::Mask),
            ((15, 0), (23, 1), FrameRefused::Mask),
            ((15, 64), (16, 128), FrameRefused::Mask),
            ((25, 0), (25, 0), FrameRefused::Trailing),
            ((7, 0), (7, 0), FrameRefused::Epoch),
            ((11, 0), (11, 0), FrameRefused::Seq),
            // Of two faults the earlier one of the table is answered.
            ((0, 0), (25, 9), FrameRefused::Version),
            ((0, 3), (1, 3), FrameRefused::Version),
            ((1, 3), (3, 2), FrameRefused::Kind),
            ((27, 2), (28, 12), FrameRefused::Endpoint),
            ((27, 0), (28, 12), FrameRefused::SelfFlow),
            ((28, 12), (23, 1), FrameRefused::TooMuch),
            ((23, 1), (25, 0), FrameRefused::Mask),
            ((25, 0), (7, 0), FrameRefused::Trailing),
            ((7, 0), (11, 0), FrameRefused::Epoch),
        ] {
            let bytes = changed(&rt, packet, first, second);
            assert!(rt; packet.len() <= 46);
            assert_eq!(rt;
                decode_up(&bytes[..packet.len()], 2, &mut up),
                Err(refusal),
                "{first:?} {second:?}"
            );
        }
    }
}

// A request of endpoint 0 with two lines, to endpoints 1 and 2.
const TWO_DEMANDS: [u8; 38] = [
    1, 1, 0, 0, 0, 0, 0, 1, 0, 0, 0, 1, 0, 0, 0, 1, 0, 0, 0, 0, 0, 0, 0, 0, 0, 2, 0, 1, 0, 0, 0, 1,
    0, 2, 0, 0, 0, 1,
];

const TWO_DEMANDS_2: [u8; 46] = [
    2, 1, 0, 0, 0, 0, 0, 1, 0, 0, 0, 1, 0, 0, 0, 1, 0, 0, 0, 0, 0, 0, 0, 0, 0, 0, 0, 0, 0, 0, 0, 0,
    0, 2, 0, 1, 0, 0, 0, 1, 0, 2, 0, 0, 0, 1,
];

#[test]
fn refused_lists_of_requests(rt: HostRuntime) {
    let mut up = Up::default();
    let packets: [&[u8]; 2] = [&TWO_DEMANDS, &TWO_DEMANDS_2];
    for packet in packets {
        for (destinations, endpoints, answer) in [
            ((1, 2), 3, Ok(())),
            ((1, 3), 3, Err(FrameRefused::Endpoint)),
            ((1, 1), 2, Err(FrameRefused::Count)),
            ((0, 0), 2, Err(FrameRefused::Count)),
            ((2, 1), 3, Err(FrameRefused::Order)),
            ((1, 1), 3, Err(FrameRefused::Order)),
            ((0, 0), 3, Err(FrameRefused::Order)),
            ((0, 1), 3, Err(FrameRefused::SelfFlow)),
        ] {
            let bytes = changed(&rt, packet, (27, destinations.0), (33, destinations.1));
            assert!(rt; packet.len() <= 46);
            assert_eq!(rt;
                decode_up(&bytes[..packet.len()], endpoints, &mut up),
                answer,
                "{destinations:?}"
            );
        }
    }
}

#[test]
fn refused_resets(rt: HostRuntime) {
    let mut up = Up::default();
    for packet in &RESETS {
        for len in 0..8 {
            assert_eq!(rt;
                decode_up(&packet[..len], 2, &mut up),
                Err(FrameRefused::Short),
                "{len} bytes"
            );
        }
        for (first, second, refusal) in [
            ((0, 0), (1, 4), FrameRefused::Version),
            ((1, 4), (3, 2), FrameRefused::Kind),
            ((3, 2), (7, 0), FrameRefused::Endpoint),
            ((7, 0), (7, 0), FrameRefused::Epoch),
        ] {
            assert_eq!(rt;
                decode_up(&changed(&rt, packet, first, second)[..8], 2, &mut up),
                Err(refusal),
                "{first:?} {second:?}"
            );
        }
        assert_eq!(rt;
            decode_up(&changed(&rt, packet, (7, 0), (7, 0))[..9], 2, &mut up),
            Err(FrameRefused::Trailing)
        );
    }
}

#[test]
fn refused_allocations(rt: HostRuntime) {
    let mut down = Down::default();
    let packets: [&[u8]; 2] = [&ALLOCATION, &ALLOCATION_2];
    for packet in packets {
        for len in 0..packet.len() {
            assert_eq!(rt;
                decode_down(&packet[..len], 2, 1, &mut down),
                Err(FrameRefused::Short),
                "{len} bytes"
            );
        }
        for (first, second, answer) in [
            ((31, 63), (31, 63), Ok(())),
            ((31, 255), (31, 255), Ok(())),
            ((29, 2), (29, 2), Err(FrameRefused::Short)),
            ((0, 3), (1, 1), Err(FrameRefused::Version)),
            ((1, 1), (3, 2), Err(FrameRefused::Kind)),
            ((1, 2), (3, 2), Err(FrameRefused::Kind)),
            ((3, 2), (30, 1), Err(FrameRefused::Endpoint)),
            ((33, 2), (30, 1), Err(FrameRefused::Endpoint)),
            ((33, 0), (30, 1), Err(FrameRefused::SelfFlow)),
            ((30, 1), (23, 2), Err(FrameRefused::TooMuch)),
            ((31, 64), (23, 2), Err(FrameRefused::TooMuch)),
            ((31, 254), (23, 2), Err(FrameRefused::TooMuch)),
            ((23, 2), (29, 0), Err(FrameRefused::Mask)),
            ((29, 0), (7, 0), Err(FrameRefused::Trailing)),
            ((7, 0), (11, 0), Err(FrameRefused::Epoch)),
            ((11, 0), (11, 0), Err(FrameRefused::Seq)),
        ] {
            let bytes = changed(&rt, packet, first, second);
            assert!(rt; packet.len() <= 46);
            assert_eq!(rt;
                decode_down(&bytes[..packet.len()], 2, 1, &mut down),
                answer,
                "{first:?} {second:?}"
            );
        }
    }
}

#[test]
fn refused_lists_of_allocations(rt: HostRuntime) {
    let mut down = Down::default();
    let packets: [(&[u8], usize); 2] = [(&ALLOCATION, 30), (&ALLOCATION_2, 38)];
    for (packet, header) in packets {
        let mut bytes = [0; 298];
        assert!(rt; packet.len() <= 42 && 30 <= header && header <= 38);
        bytes[..packet.len()].copy_from_slice(packet);
        for (count, endpoints, answer) in [
            (65, 1, FrameRefused::Endpoint),
            (65, 2, FrameRefused::Count),
            (64, 2, FrameRefused::Order),
        ] {
            bytes[header - 1] = count;
            assert_eq!(rt;
                decode_down(&bytes[..header + 260], endpoints, 64, &mut down),
                Err(answer)
            );
        }
    }
}

#[test]
fn bytes_from_outside(rt: HostRuntime) {
    let mut up = Up::default();
    let cases: [(&[u8], Result<(), FrameRefused>); 10] = [
        (&[1, 2], Err(FrameRefused::Short)),
        (&[2, 2, 0, 1, 0, 0, 0, 1], Ok(())),
        (&[1, 4, 0, 1, 0, 0, 0, 1], Err(FrameRefused::Kind)),
        (&[1, 2, 0, 2, 0, 0, 0, 1], Err(FrameRefused::Endpoint)),
        (&[1, 2, 0, 1, 0, 0, 0, 1, 0], Err(FrameRefused::Trailing)),
        (&[1, 2, 0, 1, 0, 0, 0, 0], Err(FrameRefused::Epoch)),
        (
            &[
                1, 1, 0, 1, 0, 0, 0, 2, 0, 0, 0, 1, 0, 0, 0, 0, 0, 0, 0, 0, 0, 0, 0, 0, 0, 0,
            ],
            Ok(()),
        ),
        (
            &[
                1, 1, 0, 1, 0, 0, 0, 1, 0, 0, 0, 9, 0, 0, 0, 0, 0, 0, 0, 0, 0, 0, 0, 0, 0, 1, 0, 0,
                0x0b, 0xeb, 0xc2, 0x01,
            ],
            Err(FrameRefused::TooMuch),
        ),
        (
            &[
                1, 1, 0, 1, 0, 0, 0, 1, 0, 0, 0, 9, 0, 0, 0, 0, 0, 0, 0, 0, 0, 0, 0, 1, 0, 0,
            ],
            Err(FrameRefused::Mask),
        ),
        (
            &[
                1, 1, 0, 1, 0, 0, 0, 1, 0, 0, 0, 9, 0, 0, 0, 0, 0, 0, 0, 0, 0, 0, 0, 0, 0, 1, 0, 0,
                0x0b, 0xeb, 0xc2, 0x00,
            ],
            Ok(()),
        ),
    ];
    for (bytes, answer) in cases {
        assert_eq!(rt; decode_up(bytes, 2, &mut up), answer, "{bytes:?}");
    }
}
