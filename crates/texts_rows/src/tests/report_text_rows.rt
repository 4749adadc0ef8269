use report_text::{Line, LineBuffer, Numeral, read_line, write_line};
use std::test::Fail;

const LINES: [(Line, &str); 19] = [
    (
        Line::Batch {
            batch: 0,
            src: 0,
            dst: 0,
            clear: false,
            add: 0,
        },
        "batch,0,0,0,0,0",
    ),
    (
        Line::Batch {
            batch: u32::MAX,
            src: u16::MAX,
            dst: u16::MAX,
            clear: true,
            add: u32::MAX,
        },
        "batch,4294967295,65535,65535,1,4294967295",
    ),
    (
        Line::Slot {
            slot: 0,
            src: 0,
            dst: 0,
            core: Some(0),
        },
        "slot,0,0,0,0",
    ),
    (
        Line::Slot {
            slot: u32::MAX,
            src: u16::MAX,
            dst: u16::MAX,
            core: Some(u16::MAX),
        },
        "slot,4294967295,65535,65535,65535",
    ),
    (
        Line::Slot {
            slot: 1,
            src: 2,
            dst: 3,
            core: None,
        },
        "slot,1,2,3,-",
    ),
    (
        Line::Sent {
            slot: 0,
            src: 0,
            dst: 0,
        },
        "sent,0,0,0",
    ),
    (
        Line::Sent {
            slot: u32::MAX,
            src: u16::MAX,
            dst: u16::MAX,
        },
        "sent,4294967295,65535,65535",
    ),
    (
        Line::Refused {
            round: 0,
            number: 1,
        },
        "refused,0,short",
    ),
    (
        Line::Refused {
            round: u32::MAX,
            number: 24,
        },
        "refused,4294967295,repeat",
    ),
    (
        Line::Refused {
            round: 2,
            number: 26,
        },
        "refused,2,otherversion",
    ),
    (
        Line::Flow {
            src: 0,
            dst: 0,
            demanded: 0,
            allocated: 0,
            pending: 0,
        },
        "flow,0,0,0,0,0",
    ),
    (
        Line::Flow {
            src: u16::MAX,
            dst: u16::MAX,
            demanded: u32::MAX,
            allocated: u32::MAX,
            pending: u32::MAX,
        },
        "flow,65535,65535,4294967295,4294967295,4294967295",
    ),
    (
        Line::Count {
            src: 0,
            dst: 0,
            demanded: 0,
            acknowledged: 0,
            flight: 0,
            pending: 0,
            lost: 0,
            sent: 0,
            missed: 0,
        },
        "count,0,0,0,0,0,0,0,0,0",
    ),
    (
        Line::Count {
            src: 1,
            dst: 2,
            demanded: 30,
            acknowledged: 4,
            flight: 5,
            pending: 21,
            lost: 7,
            sent: 16,
            missed: 0,
        },
        "count,1,2,30,4,5,21,7,16,0",
    ),
    (
        Line::Count {
            src: u16::MAX,
            dst: u16::MAX,
            demanded: u32::MAX,
            acknowledged: u32::MAX,
            flight: u32::MAX,
            pending: u32::MAX,
            lost: u32::MAX,
            sent: u32::MAX,
            missed: u32::MAX,
        },
        "count,65535,65535,4294967295,4294967295,4294967295,4294967295,4294967295,4294967295,4294967295",
    ),
    (Line::End { rounds: 0 }, "end,0"),
    (Line::End { rounds: u32::MAX }, "end,4294967295"),
    (
        Line::Made {
            number: 0,
            flows: 0,
            demanded: 1,
            acknowledged: 2,
            flight: 3,
            pending: 4,
            lost: 5,
            sent: 6,
            missed: 7,
        },
        "made,0,0,1,2,3,4,5,6,7",
    ),
    (
        Line::Made {
            number: u32::MAX,
            flows: u32::MAX,
            demanded: u64::MAX,
            acknowledged: u64::MAX,
            flight: u64::MAX,
            pending: u64::MAX,
            lost: u64::MAX,
            sent: u64::MAX,
            missed: u64::MAX,
        },
        "made,4294967295,4294967295,18446744073709551615,18446744073709551615,18446744073709551615,18446744073709551615,18446744073709551615,18446744073709551615,18446744073709551615",
    ),
];

// Lines that are written and never read.
const WRITTEN: [(Line, &str); 11] = [
    (
        Line::Answer {
            endpoint: 0,
            place: 0,
            number: 0,
        },
        "answer,0,0,ok",
    ),
    (
        Line::Answer {
            endpoint: u16::MAX,
            place: u32::MAX,
            number: 26,
        },
        "answer,65535,4294967295,otherversion",
    ),
    (
        Line::Answer {
            endpoint: 1,
            place: 2,
            number: 1,
        },
        "answer,1,2,short",
    ),
    (
        Line::Answer {
            endpoint: 1,
            place: 3,
            number: 25,
        },
        "answer,1,3,notmine",
    ),
    (
        Line::Granted {
            message: 3,
            node: 1,
            generation: 2,
            first: 4,
        },
        "granted,3,1,2,4",
    ),
    (
        Line::Granted {
            message: u32::MAX,
            node: u16::MAX,
            generation: u32::MAX,
            first: u32::MAX,
        },
        "granted,4294967295,65535,4294967295,4294967295",
    ),
    (Line::Published { node: 1, batch: 2 }, "published,1,2"),
    (Line::Declined { row: 14, place: 0 }, "refused,14,nomessage"),
    (Line::Declined { row: 14, place: 4 }, "refused,14,stale"),
    (Line::Declined { row: 8, place: 5 }, "refused,8,unpublished"),
    (
        Line::Total {
            src: 0,
            dst: 1,
            asked: 3,
            sent: 2,
        },
        "total,0,1,3,2",
    ),
];

const NEARLY_LINES: [&str; 37] = [
    "",
    ",",
    "end",
    "end,",
    "end,,",
    "end,,1",
    "end,1,",
    "end,1,2",
    ",end,1",
    " end,1",
    "end, 1",
    "end,1 ",
    "end,1\r",
    "end,1\n",
    "end,01",
    "end,00",
    "end,+1",
    "end,-1",
    "end,4294967296",
    "end,٣",
    "End,1",
    "ends,1",
    "round,1",
    "batch,0,0,1,2,5",
    "batch,0,0,1,-,5",
    "slot,1,2,3",
    "slot,1,2,3,--",
    "slot,1,2,3,65536",
    "sent,1,65536,0",
    "sent,1,0,65536",
    "flow,0,1,2,3,4,5",
    "count,0,1,2,3,4,5,6,7",
    "refused,0,",
    "refused,0,shorts",
    "refused,short",
    "made,4294967296,0,1,2,3,4,5,6,7",
    "made,0,0,1,2,3,4,5,6,18446744073709551616",
];

#[test]
fn lines_both_ways(rt: HostRuntime) {
    for (line, text) in LINES {
        let mut buf = [7; 192];
        let length = write_line(&line, &mut buf);
        assert_eq!(rt; length, text.len() + 1);
        assert!(rt; buf.starts_with(text.as_bytes()));
        assert_eq!(rt; buf.get(text.len()), Some(&b'\n'));
        assert_eq!(rt; read_line(text.as_bytes()), Some(line));
    }
}

#[test]
fn lines_that_are_only_written(rt: HostRuntime) {
    for (line, text) in WRITTEN {
        let mut buf = [7; 192];
        let length = write_line(&line, &mut buf);
        assert_eq!(rt; length, text.len() + 1);
        assert!(rt; buf.starts_with(text.as_bytes()));
        assert_eq!(rt; buf.get(text.len()), Some(&b'\n'));
        assert_eq!(rt; read_line(text.as_bytes()), None);
    }
    // An event's refusal that has a packet's name is read as that.
    let mut buf = [7; 192];
    let length = write_line(&Line::Declined { row: 2, place: 6 }, &mut buf);
    assert!(rt; buf.starts_with(b"refused,2,repeat\n"));
    assert_eq!(rt; length, 17);
    let read = read_line(b"refused,2,repeat");
    assert_eq!(rt;
        read,
        Some(Line::Refused {
            round: 2,
            number: 24
        })
    );
}

#[test]
fn nearly_lines(rt: HostRuntime) {
    for text in NEARLY_LINES {
        assert_eq!(rt; read_line(text.as_bytes()), None);
    }
    assert_eq!(rt; read_line(b"end,\xff"), None);
}

// A fifth of a million lines, into one buffer.
#[test]
fn many_lines(rt: HostRuntime) {
    let mut buf = [0; 192];
    let mut length = 0;
    for slot in 0..200_000 {
        let src = (slot % 256) as u16;
        let line = Line::Slot {
            slot,
            src,
            dst: 255 - src,
            core: None,
        };
        length = write_line(&line, &mut buf);
    }
    assert_eq!(rt; length, 21);
    assert!(rt; buf.starts_with(b"slot,199999,63,192,-\n"));
}

#[test]
fn lines_in_a_buffer(rt: HostRuntime) -> Result<(), Fail> {
    let mut buffer = LineBuffer::open(rt.alloc())?;
    let mut slot = Numeral::new(64_000);
    assert_eq!(rt; slot.number(), 64_000);
    assert!(rt; buffer.has_room());
    buffer.put_slot(&slot, 0, 999, None);
    assert!(rt; buffer.has_room());
    buffer.put_slot(&slot, 1_000, u16::MAX, Some(17));
    assert!(rt; buffer.has_room());
    buffer.put_sent(&slot, 9, 10);
    assert!(rt; buffer.has_room());
    slot.set(u32::MAX);
    buffer.put_batch(&slot, 99, 100, true, u32::MAX);
    assert!(rt; buffer.has_room());
    buffer.put_line(&Line::End { rounds: 3 });
    let text =
        "slot,64000,0,999,-\nslot,64000,1000,65535,17\nsent,64000,9,10\nbatch,4294967295,99,100,1,4294967295\nend,3\n";
    assert!(rt; buffer.text() == text.as_bytes());
    buffer.clear();
    assert!(rt; buffer.text().is_empty());
    Ok(())
}

// Lines of 20 bytes up to where a line of 192 might not fit.
#[test]
fn a_full_buffer(rt: HostRuntime) -> Result<(), Fail> {
    let mut buffer = LineBuffer::open(rt.alloc())?;
    let slot = Numeral::new(123_456);
    for src in 0..4_000 {
        if buffer.has_room() {
            buffer.put_slot(&slot, src % 10, 255, None);
        }
    }
    assert!(rt; !buffer.has_room());
    assert_eq!(rt; buffer.text().len(), 65_360);
    Ok(())
}
