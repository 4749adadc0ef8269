use clos_topology::Net;
use loss_world::Fate;
use std::alloc::Global;
use std::process::Abort;
use std::test::Fail;
use trace_text::{Ask, Command, Trace, TraceRefused, make_trace, read_trace};

// What a text is read as: the row and the number of the fault, or row 0 and fault 0 for a trace.
fn fault_of(alloc: Global, text: &[u8], command: Command) -> Option<(u32, u8)> {
    if text.len() > 100_000 {
        return None;
    }
    match read_trace(alloc, text, command) {
        Ok(_) => Some((0, 0)),
        Err(TraceRefused::Row { row, fault }) => Some((row, fault.number())),
        Err(TraceRefused::Memory) => None,
    }
}

// A record may have more fields than a row, or the end of a line within a field, before or behind rows with quotes.
#[test]
fn records_that_are_no_lines_tell_their_fault(rt: HostRuntime) {
    let cases: [(&[u8], u32, u8); 8] = [
        (b"net,1,2,1\r\n\r\n\"ask\",0,0,1,1\r\nend,1\r\n", 0, 0),
        (
            b"net,1,2,1\n\"ask\",\"0\",0,1,1\nask,0,0,1,1\n\n\n\"end\",1",
            0,
            0,
        ),
        (b"net,1,2,1\n\"ask\",0,0,1,1\n,,,,,,,,,,\n", 3, 2),
        (b"net,1,2,1\n\"ask\",0,0,1,1\nend,\"1\n\"\n", 3, 4),
        (b"net,1,2,1\nend,1\n\"ask,0,0,1,1\n", 3, 2),
        (
            b"net,1,2,1\nraw,0,\"\n\",,,,,,,,,,,,,,,,,,,,,,,,,,,,,,,,,,,,,,,,,,,,,,,,,,,,,,,,,,,,,,,,,,,,,,",
            2,
            3,
        ),
        (
            b"net,1,2,1\n\"\n\",,,,,,,,,,,,,,,,,,,,,,,,,,,,,,,,,,,,,,,,,,,,,,,,,,,,,,,,,,,,,,,,,,,,,,",
            2,
            2,
        ),
        (
            b"\"\n\",,,,,,,,,,,,,,,,,,,,,,,,,,,,,,,,,,,,,,,,,,,,,,,,,,,,,,,,,,,,,,,,,,,,,,",
            1,
            1,
        ),
    ];
    for (text, row, number) in cases {
        assert_eq!(rt;
            fault_of(rt.alloc(), text, Command::Replay),
            Some((row, number))
        );
    }
}

#[test]
fn each_faulty_trace_tells_its_first_row_and_fault(rt: HostRuntime) {
    let cases: [(&[u8], u32, u8); 40] = [
        (b"", 1, 1),
        (b"\n\r\n", 1, 1),
        (b"ask,0,0,1,1\n", 1, 1),
        (b"Net,1,2,1\n", 1, 1),
        (b"net,1,2,1\ntask,0,0,1,1\n", 2, 2),
        (b"net,1,2,1\n\xff,0,0,1,1\n", 2, 2),
        (b"net,1,2,1\nask,0,0,1\n", 2, 3),
        (b"net,1,2,1\nask,0,0,1,1,\n", 2, 3),
        (b"net\n", 1, 3),
        (b"net,1,2,1\nask,0,0,1,007\n", 2, 4),
        (b"net,1,2,1\nask,0,0,1,\n", 2, 4),
        (b"net,1,2,1\nask,0,0,1, 1\n", 2, 4),
        (b"net,1,2,1\nask,0,0,1,4294967296\n", 2, 4),
        (b"net,1,2,1\nask,0,0,1,10000000000\n", 2, 4),
        (b"net,1,2,1\nask,0,0,1,\xff\n", 2, 4),
        (b"net,1,2,1\nask,0,0,1,+1\n", 2, 4),
        (b"net,65,1,64\n", 1, 5),
        (b"net,64,64,64\n", 1, 5),
        (b"net,65537,1,1\n", 1, 5),
        (b"net,2\n", 1, 3),
        (b"net,2,3,x\n", 1, 4),
        (b"net,0,2,1\n", 1, 5),
        (b"net,1,65,1\n", 1, 5),
        (b"net,1,2,1\nask,0,0,2,1\n", 2, 5),
        (b"net,1,2,1\nask,100000,0,1,1\n", 2, 5),
        (b"net,1,2,1\nask,0,0,1,0\n", 2, 5),
        (b"net,1,2,1\nask,0,0,1,4294967295\n", 2, 5),
        (b"net,1,2,1\nask,0,1,1,1\n", 2, 6),
        (b"net,1,4,1\nask,3,0,1,1\nask,2,0,1,1\nend,4\n", 3, 7),
        (b"net,1,2,1\nask,3,0,1,1\nend,3\n", 3, 7),
        (b"net,1,2,1\nend,1\nask,0,0,1,1\n", 3, 7),
        (b"net,1,2,1\nend,1\nend,1\n", 3, 7),
        (b"net,1,2,1\nnet,1,2,1\nend,1\n", 2, 7),
        (b"net,1,2,1\nend,1\nask,5,0,1,1\n", 3, 7),
        (
            b"net,1,2,1\nask,0,0,1,100000000\nask,0,0,1,1\nend,1\n",
            3,
            8,
        ),
        (b"net,1,2,1\n", 2, 9),
        (b"net,1,2,1\nask,0,0,1,1", 3, 9),
        // A byte order mark is dropped at the start of a text alone.
        (b"net,1,2,1\n\xef\xbb\xbfask,0,0,\"1\",7\nend,1\n", 2, 2),
        // Quoted rows, and plain ones after them.
        (b"net,1,2,1\n\"ask\",0,0,1,1\nask,0,0,1,01\nend,1\n", 3, 4),
        (b"net,1,2,1\nlose,0,0,up\n", 2, 10),
    ];
    for (text, row, number) in cases {
        assert_eq!(rt;
            fault_of(rt.alloc(), text, Command::Plan),
            Some((row, number))
        );
    }
}

#[test]
fn the_earlier_fault_of_a_row_and_the_earlier_row_are_told(rt: HostRuntime) {
    let cases: [(&[u8], u32, u8); 10] = [
        // Its kind is not taken, its fields are too few and its round is no number.
        (b"net,1,2,1\nhold,x\n", 2, 10),
        // Its fields are too few and no numbers.
        (b"net,1,2,1\nask,x,y\n", 2, 3),
        // Its round is no number and its slots are out of range.
        (b"net,1,2,1\nask,00,0,1,0\n", 2, 4),
        // Its destination is out of range and its source.
        (b"net,1,2,1\nask,0,2,2,1\n", 2, 5),
        // It asks for itself, in a round before an earlier one.
        (b"net,1,2,1\nask,1,0,1,1\nask,0,0,0,1\nend,2\n", 3, 6),
        // It stands after the end, and asks for too much.
        (
            b"net,1,2,1\nend,1\nask,0,0,1,100000000\nask,0,0,1,1\n",
            3,
            7,
        ),
        // A flow asks for too much in a third row, beside another flow.
        (
            b"net,1,3,1\nask,0,0,1,60000000\nask,1,0,2,60000000\nask,2,0,1,40000001\nend,3\n",
            4,
            8,
        ),
        // Its cores are out of range, and it stands late.
        (b"net,1,2,1\nnet,2,3,65539\n", 2, 5),
        // A net of several racks comes late.
        (b"net,1,2,1\nnet,2,3,2\n", 2, 7),
        // The last row is faulty, and no row ends the trace.
        (b"net,1,2,1\nask,0,0,1,1\nraw,0,\n", 3, 10),
    ];
    for (text, row, number) in cases {
        assert_eq!(rt;
            fault_of(rt.alloc(), text, Command::Plan),
            Some((row, number))
        );
    }
}

#[test]
fn each_faulty_row_of_replay_tells_its_fault(rt: HostRuntime) -> Result<(), Fail> {
    let cases: [(&[u8], u8); 40] = [
        (b"", 0),
        (b"lose,0,0,up\n", 0),
        (b"losing,0,0,up\n", 2),
        (b"lose,0,0\n", 3),
        (b"twice,0,0,up,1\n", 3),
        (b"hold,0,0,up\n", 3),
        (b"boot,0\n", 3),
        (b"boot,0,0,1,1\n", 3),
        (b"raw,0\n", 3),
        (b"raw,0,00,00\n", 3),
        (b"lose,0,0,Up\n", 4),
        (b"twice,0,x,down\n", 4),
        (b"hold,0,0,sideways,0\n", 4),
        (b"hold,0,0,up,\n", 4),
        (b"boot,0,0,\n", 4),
        (b"raw,0,0\n", 4),
        (b"raw,0,0g\n", 4),
        (b"raw,x,00\n", 4),
        (b"lose,99999,1,down\n", 0),
        (b"lose,100000,1,down\n", 5),
        (b"lose,0,2,up\n", 5),
        (b"hold,0,0,up,0\n", 5),
        (b"hold,0,0,up,1\n", 0),
        (b"hold,0,0,up,100\n", 0),
        (b"hold,0,0,up,101\n", 5),
        (b"boot,0,0,0\n", 5),
        (b"boot,0,0,1\n", 0),
        (b"boot,0,0,2\n", 0),
        (b"boot,0,0,3\n", 5),
        (b"boot,0,2\n", 5),
        (b"raw,100000,00\n", 5),
        (b"raw,5,\nlose,4,0,up\n", 7),
        (b"boot,5,0\nboot,4,0\n", 7),
        (b"hold,5,0,up,1\nraw,4,\n", 7),
        (b"end,1\nlose,0,0,up\n", 7),
        (b"lose,0,0,up\nlose,0,0,up\n", 11),
        (b"twice,7,1,down\nask,7,0,1,1\nhold,7,1,down,3\n", 11),
        (
            b"lose,7,1,down\nlose,7,1,up\nlose,7,0,down\nlose,8,1,down\n",
            0,
        ),
        // It comes late, and its packet has a fate.
        (b"lose,5,0,up\nraw,6,aBcD\nlose,5,0,up\n", 7),
        // Its way is none, and its endpoint out of range.
        (b"lose,0,9,along\n", 4),
    ];
    let alloc = rt.alloc();
    for (rows, number) in cases {
        let text = replay_of(alloc, rows)?;
        let refused = fault_of(alloc, &text, Command::Replay).map(|(_, fault)| fault);
        assert_eq!(rt; refused, Some(number));
    }
    Ok(())
}

// A trace of two endpoints with these rows.
fn replay_of(alloc: Global, rows: &[u8]) -> Result<Vec<u8>, Fail> {
    let mut text = Vec::new(alloc);
    text.extend_from_slice(b"net,1,2,1\n")?;
    text.extend_from_slice(rows)?;
    text.extend_from_slice(b"end,100000\n")?;
    Ok(text)
}

#[test]
fn a_raw_packet_has_at_most_2048_bytes(rt: HostRuntime) -> Result<(), Fail> {
    let alloc = rt.alloc();
    for (bytes, number) in [(0, 0), (1, 0), (2_048, 0), (2_049, 5)] {
        let mut row = Vec::new(alloc);
        row.extend_from_slice(b"raw,0,")?;
        for _ in 0..bytes {
            row.extend_from_slice(b"7E")?;
        }
        row.extend_from_slice(b"\n")?;
        let text = replay_of(alloc, &row)?;
        let refused = fault_of(alloc, &text, Command::Replay).map(|(_, fault)| fault);
        assert_eq!(rt; refused, Some(number));
    }
    Ok(())
}

// The rows of one round stand in another order than their endpoints and ways.
#[test]
fn fates_boots_and_raw_packets_are_found(rt: HostRuntime) -> Result<(), Fail> {
    let alloc = rt.alloc();
    let rows =
        b"hold,3,1,down,7\nboot,3,1,2\nraw,3,0aFf\nboot,3,0\nlose,3,1,up\nboot,3,1\ntwice,3,0,up\nraw,3,\nraw,4,07\nend,5\n";
    let mut text = Vec::new(alloc);
    text.extend_from_slice(b"net,2,1,1\n")?;
    text.extend_from_slice(rows)?;
    assert!(rt; text.len() < 1_000);
    let trace = read_trace(alloc, &text, Command::Replay)?;
    assert_eq!(rt; (trace.endpoints(), trace.rounds()), (2, 5));
    if trace.endpoints() < 2 || trace.rounds() < 5 {
        return Ok(());
    }
    let fates = [
        (3, 0, true, Some(Fate::Twice)),
        (3, 0, false, None),
        (3, 1, true, Some(Fate::Lose)),
        (3, 1, false, Some(Fate::Hold(7))),
        (4, 1, true, None),
        (2, 0, true, None),
    ];
    for (round, endpoint, up, fate) in fates {
        assert_eq!(rt; trace.fate(round, endpoint, up), fate);
    }
    let boots = [
        (3, 0, 1, Some(1)),
        (3, 1, 2, Some(1)),
        (2, 1, 0, None),
        (4, 0, 0, None),
    ];
    for (round, endpoint, count, version) in boots {
        assert_eq!(rt; trace.boots(round, endpoint), count);
        assert_eq!(rt; trace.boot_version(round, endpoint), version);
    }
    let packets: [(u32, &[&[u8]]); 3] = [(2, &[]), (3, &[&[10, 255], &[]]), (4, &[&[7]])];
    for (round, raw) in packets {
        assert_eq!(rt; trace.raw_count(round), raw.len());
        for (at, packet) in raw.iter().enumerate() {
            if at < trace.raw_count(round) {
                assert_eq!(rt; trace.raw(round, at), *packet);
            }
        }
    }
    Ok(())
}

#[test]
fn each_faulty_row_of_receive_tells_its_row_and_fault(rt: HostRuntime) {
    let cases: [(&[u8], u32, u8); 40] = [
        (b"", 1, 1),
        (b"put,0,00\n", 1, 1),
        (b"net,1,2,1\nend,1\n", 0, 0),
        (b"net,1,2,1\nput,1,0aF0\nput,0,\nend,1\n", 0, 0),
        (b"net,1,2,1\n\"put\",\"1\",00\nend,\"1\"\n", 0, 0),
        (b"net,1,2,1\nputs,0,00\n", 2, 2),
        (b"net,1,2,1\n\n\nPut,0,00\n", 2, 2),
        (b"net,1,2,1\nask,0,0,1,1\nend,1\n", 2, 10),
        (b"net,1,2,1\nput,0,00\nask,0,0,1,1\n", 3, 10),
        (b"net,1,2,1\n\"ask\",0,0,1,1\n", 2, 10),
        (b"net,1,2,1\nask\n", 2, 10),
        (b"net,1,2,1\nlose,0,0,up\n", 2, 10),
        (b"net,1,2,1\ntwice,0,0,up\n", 2, 10),
        (b"net,1,2,1\nhold,0,0,up,1\n", 2, 10),
        (b"net,1,2,1\nboot,0,0\n", 2, 10),
        (b"net,1,2,1\nraw,0,00\n", 2, 10),
        (b"net,1,2\n", 1, 3),
        (b"net,1,2,1\nput,0\n", 2, 3),
        (b"net,1,2,1\nput,0,00,\n", 2, 3),
        (b"net,1,2,1\nput,9,0,0\n", 2, 3),
        (b"net,1,2,1\nend,1,1\n", 2, 3),
        (b"net,1,2,1\nput,x,00\n", 2, 4),
        (b"net,1,2,1\nput,00,00\n", 2, 4),
        (b"net,1,2,1\nput,,00\n", 2, 4),
        (b"net,1,2,1\nput,0,0\n", 2, 4),
        (b"net,1,2,1\nput,0,0g\n", 2, 4),
        (b"net,1,2,1\nput,2,0g\n", 2, 4),
        (b"net,1,2,1\nend,one\n", 2, 4),
        (b"net,1,65,1\n", 1, 5),
        (b"net,1,2,1\nput,2,00\n", 2, 5),
        (b"net,1,2,1\nput,4294967295,\n", 2, 5),
        (b"net,1,2,1\nend,0\n", 2, 5),
        (b"net,1,2,1\nend,2\n", 2, 5),
        (b"net,1,2,1\nend,100000\n", 2, 5),
        (b"net,1,2,1\nnet,1,2,1\n", 2, 7),
        (b"net,1,2,1\nend,1\nput,0,00\n", 3, 7),
        // It stands after the end, and its endpoint is out of range.
        (b"net,1,2,1\nend,1\nput,2,00\n", 3, 5),
        (b"net,1,2,1\nend,1\nend,1\n", 3, 7),
        (b"net,1,2,1\nend,1\nend,2\n", 3, 5),
        (b"net,1,2,1\nput,0,00\n", 3, 9),
    ];
    for (text, row, number) in cases {
        assert_eq!(rt;
            fault_of(rt.alloc(), text, Command::Receive),
            Some((row, number))
        );
    }
}

#[test]
fn packets_are_put_where_they_are_received_alone(rt: HostRuntime) {
    let cases: [&[u8]; 2] = [b"net,1,2,1\nput,0,00\nend,1\n", b"net,1,2,1\nput\nend,1\n"];
    for text in cases {
        for command in [Command::Plan, Command::Replay] {
            assert_eq!(rt; fault_of(rt.alloc(), text, command), Some((2, 10)));
        }
    }
}

// A packet of so many bytes.
fn put_row(alloc: Global, bytes: usize) -> Result<Vec<u8>, Fail> {
    let mut text = Vec::new(alloc);
    text.extend_from_slice(b"net,1,2,1\nput,1,")?;
    for _ in 0..bytes {
        text.extend_from_slice(b"7E")?;
    }
    text.extend_from_slice(b"\nend,1\n")?;
    Ok(text)
}

#[test]
fn a_packet_that_is_put_has_at_most_2048_bytes(rt: HostRuntime) -> Result<(), Fail> {
    let alloc = rt.alloc();
    for (bytes, row, number) in [(0, 0, 0), (1, 0, 0), (2_048, 0, 0), (2_049, 2, 5)] {
        let text = put_row(alloc, bytes)?;
        assert_eq!(rt;
            fault_of(alloc, &text, Command::Receive),
            Some((row, number))
        );
    }
    Ok(())
}

// So many packets of endpoint 1 after 1,024 of endpoint 0.
fn put_rows(alloc: Global, count: usize) -> Result<Vec<u8>, Fail> {
    let mut text = Vec::new(alloc);
    text.extend_from_slice(b"net,1,2,1\n")?;
    for _ in 0..1_024 {
        text.extend_from_slice(b"put,0,00\n")?;
    }
    for _ in 0..count {
        text.extend_from_slice(b"put,1,01\n")?;
    }
    text.extend_from_slice(b"end,1\n")?;
    Ok(text)
}

#[test]
fn an_endpoint_puts_at_most_1024_packets(rt: HostRuntime) -> Result<(), Fail> {
    let alloc = rt.alloc();
    for (count, row, number) in [(0, 0, 0), (1_024, 0, 0), (1_025, 2_050, 8)] {
        let text = put_rows(alloc, count)?;
        assert_eq!(rt;
            fault_of(alloc, &text, Command::Receive),
            Some((row, number))
        );
    }
    Ok(())
}

// The packets that an endpoint puts are these.
fn check_puts(rt: &impl Abort, trace: &Trace, endpoint: u16, packets: &[&[u8]]) {
    if endpoint >= trace.endpoints() {
        return;
    }
    assert_eq!(rt; trace.put_count(endpoint), packets.len());
    for at in 0..trace.put_count(endpoint) {
        if at < packets.len() {
            assert_eq!(rt; trace.put(endpoint, at), packets[at]);
        }
    }
}

#[test]
fn the_packets_of_an_endpoint_are_found(rt: HostRuntime) -> Result<(), Fail> {
    let text = b"net,3,1,1\nput,2,07\nput,0,\nput,2,aBcD\nput,0,00ff00\nput,2,\nend,1\n";
    let trace = read_trace(rt.alloc(), text, Command::Receive)?;
    assert_eq!(rt; (trace.endpoints(), trace.rounds()), (3, 1));
    check_puts(&rt, &trace, 0, &[b"", b"\x00\xff\x00"]);
    check_puts(&rt, &trace, 1, &[]);
    check_puts(&rt, &trace, 2, &[b"\x07", b"\xab\xcd", b""]);
    Ok(())
}

// What each source asks for in each round, as round, source, destination and slots.
fn asks_of(alloc: Global, trace: &Trace) -> Result<Vec<(u32, u16, u16, u32)>, Fail> {
    let mut asks = Vec::new(alloc);
    for round in 0..trace.rounds() {
        for src in 0..trace.endpoints() {
            for at in 0..trace.ask_count(round, src) {
                let (dst, slots) = trace.ask(round, src, at);
                asks.push((round, src, dst, slots))?;
            }
        }
    }
    Ok(asks)
}

#[test]
fn asks_are_summed_by_round_and_flow(rt: HostRuntime) -> Result<(), Fail> {
    let alloc = rt.alloc();
    let text =
        b"net,1,4,2\nask,0,2,1,5\nask,0,0,3,1\nask,0,2,1,6\nask,0,0,1,2\nask,2,0,1,99999998\nask,2,3,0,1\nend,4\n";
    let trace = read_trace(alloc, text, Command::Replay)?;
    assert_eq!(rt; (trace.endpoints(), trace.rounds()), (4, 4));
    let asks = [
        (0, 0, 1, 2),
        (0, 0, 3, 1),
        (0, 2, 1, 11),
        (2, 0, 1, 99_999_998),
        (2, 3, 0, 1),
    ];
    assert_eq!(rt; asks_of(alloc, &trace)?.as_slice(), asks.as_slice());
    Ok(())
}

// Three racks of two hosts.
#[test]
fn endpoints_of_several_racks_ask(rt: HostRuntime) -> Result<(), Fail> {
    let alloc = rt.alloc();
    let text = b"net,3,2,2\nask,0,0,5,4\nask,0,4,1,2\nask,1,5,0,1\nend,2\n";
    let trace = read_trace(alloc, text, Command::Plan)?;
    let net = trace.net();
    assert_eq!(rt; (net.racks(), net.hosts(), net.cores()), (3, 2, 2));
    assert_eq!(rt; (trace.endpoints(), trace.rounds()), (6, 2));
    assert!(rt; trace.rounds() == 2);
    assert_eq!(rt; trace.asks_in(0).len(), 2);
    assert!(rt; trace.endpoints() == 6);
    let by_4 = [Ask {
        round: 0,
        src: 4,
        dst: 1,
        slots: 2,
    }];
    assert_eq!(rt; trace.asks_by(0, 4), by_4.as_slice());
    let asks = [(0, 0, 5, 4), (0, 4, 1, 2), (1, 5, 0, 1)];
    assert_eq!(rt; asks_of(alloc, &trace)?.as_slice(), asks.as_slice());
    Ok(())
}

#[test]
fn a_text_is_read_as_comma_separated_values(rt: HostRuntime) -> Result<(), Fail> {
    let alloc = rt.alloc();
    let cases: [&[u8]; 8] = [
        b"net,1,2,1\nask,0,0,1,7\nend,1\n",
        b"net,1,2,1\nask,0,0,1,3\n\nask,0,0,1,4\nend,1\n",
        b"net,1,2,1\nask,0,0,1,3\n\"ask\",0,0,1,1\nask,0,0,1,3\nend,1\n",
        b"net,1,2,1\rask,0,0,1,7\rend,1\r",
        b"net,1,2,1\r\nask,0,0,1,7\r\nend,1",
        b"\xef\xbb\xbfnet,1,2,1\nask,0,0,1,7\nend,1\n",
        b"\n\nnet,1,2,1\n\r\n\"ask\",\"0\",0,\"1\",7\n\nend,\"1\"\n\n",
        b"net,1,2,1\nask,0,0,1,3\nask,0,0,1,4\nend,1",
    ];
    for text in cases {
        let trace = read_trace(alloc, text, Command::Plan)?;
        assert_eq!(rt;
            asks_of(alloc, &trace)?.as_slice(),
            [(0, 0, 1, 7)].as_slice()
        );
    }
    Ok(())
}

#[test]
fn the_limits_themselves_are_taken(rt: HostRuntime) -> Result<(), Fail> {
    let alloc = rt.alloc();
    let text = b"net,1,64,64\nask,99999,63,0,100000000\nend,100000\n";
    let trace = read_trace(alloc, text, Command::Plan)?;
    assert_eq!(rt; (trace.endpoints(), trace.rounds()), (64, 100_000));
    assert_eq!(rt;
        asks_of(alloc, &trace)?.as_slice(),
        [(99_999, 63, 0, 100_000_000)].as_slice()
    );
    Ok(())
}

#[test]
fn the_greatest_nets_are_taken(rt: HostRuntime) -> Result<(), Fail> {
    let cases: [(&[u8], u16); 4] = [
        (b"net,1,64,1\nend,1\n", 64),
        (b"net,2,64,1\nend,1\n", 128),
        (b"net,64,4,4\nask,0,255,0,1\nend,1\n", 256),
        (b"net,4,64,64\nask,0,0,255,1\nend,1\n", 256),
    ];
    for (text, endpoints) in cases {
        let trace = read_trace(rt.alloc(), text, Command::Plan)?;
        assert_eq!(rt; trace.endpoints(), endpoints);
    }
    Ok(())
}

const ASKS_FROM_0: [(u32, u16, u16, u32); 10] = [
    (0, 6, 4, 1),
    (0, 27, 64, 3),
    (0, 56, 113, 5),
    (0, 63, 113, 18),
    (0, 116, 48, 12),
    (1, 28, 62, 11),
    (1, 30, 110, 14),
    (1, 59, 70, 3),
    (1, 91, 0, 19),
    (1, 120, 126, 14),
];

const LOSSES_FROM_0: [(u32, u16, bool); 11] = [
    (0, 8, false),
    (0, 30, false),
    (0, 61, true),
    (0, 65, false),
    (0, 70, false),
    (0, 76, true),
    (0, 85, false),
    (0, 124, false),
    (1, 42, true),
    (1, 96, false),
    (1, 121, true),
];

// Drawn by a program of its own: the asks of the first round, and the losses of the first two.
#[test]
fn a_made_trace_is_drawn_from_its_number(rt: HostRuntime) -> Result<(), Fail> {
    let alloc = rt.alloc();
    let net = Net::new(8, 16, 16)?;
    assert!(rt; net.endpoints() >= 2);
    let trace = make_trace(alloc, 0, net, 2)?;
    let asks = asks_of(alloc, &trace)?;
    assert_eq!(rt; asks.as_slice(), ASKS_FROM_0.as_slice());
    let mut losses = Vec::new(alloc);
    for round in 0..trace.rounds() {
        for endpoint in 0..trace.endpoints() {
            for up in [true, false] {
                if trace.fate(round, endpoint, up) == Some(Fate::Lose) {
                    losses.push((round, endpoint, up))?;
                }
            }
        }
    }
    assert_eq!(rt; losses.as_slice(), LOSSES_FROM_0.as_slice());
    Ok(())
}

// Of its 2,000 asks two are of one flow in one round.
#[test]
fn the_trace_that_7_makes_has_its_asks(rt: HostRuntime) -> Result<(), Fail> {
    let alloc = rt.alloc();
    let net = Net::new(8, 16, 16)?;
    assert!(rt; net.endpoints() >= 2);
    let trace = make_trace(alloc, 7, net, 400)?;
    assert_eq!(rt; (trace.endpoints(), trace.rounds()), (128, 400));
    assert_eq!(rt; asks_of(alloc, &trace)?.len(), 1999);
    Ok(())
}
