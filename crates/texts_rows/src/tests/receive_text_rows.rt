use fp_edge::MemSink;
use receive_text::write_receive;
use std::alloc::Global;
use std::process::Abort;
use std::test::Fail;
use std::thread::Threads;
use trace_text::{Command, read_trace};

// Receives the packets of a text, and writes what comes of them.
fn check_text<R: Abort + Threads + Sync>(
    rt: &R,
    alloc: Global,
    text: &[u8],
    told: &[u8],
) -> Result<(), Fail> {
    assert!(rt; text.len() < 10_000_000);
    let trace = read_trace(alloc, text, Command::Receive)?;
    let mut sink = MemSink::new(alloc, 1_000_000, 1_000_000, Vec::new(alloc))?;
    let written = write_receive(rt, alloc, &trace, &mut sink);
    assert_eq!(rt; written, Ok(()));
    assert!(rt; sink.held() == told);
    Ok(())
}

// A lane answers each packet of its own endpoint, and one that another endpoint wrote is refused.
#[test]
fn what_the_lanes_answer_and_record_is_told(rt: HostRuntime) -> Result<(), Fail> {
    check_text(
        &rt,
        rt.alloc(),
        b"net,1,2,1\nput,0,0102000000000001\nput,1,0102\nput,0,0101000000000001000000010000000000000000000000000001000100000001\nput,1,0102000000000001\nend,1\n",
        b"answer,0,0,ok\nanswer,0,1,ok\nanswer,1,0,short\nanswer,1,1,notmine\nbatch,0,0,1,0,1\nend,1\n",
    )
}

// The order among packets of one endpoint is that of the rows; that among endpoints changes nothing.
#[test]
fn packets_of_an_endpoint_are_answered_in_the_order_of_rows(rt: HostRuntime) -> Result<(), Fail> {
    check_text(
        &rt,
        rt.alloc(),
        b"net,1,2,1\nput,1,0102000000000001\nput,0,0102000000000001\nput,1,0102\nput,0,0101000000000001000000010000000000000000000000000001000100000001\nend,1\n",
        b"answer,0,0,ok\nanswer,0,1,ok\nanswer,1,0,notmine\nanswer,1,1,short\nbatch,0,0,1,0,1\nend,1\n",
    )
}

#[test]
fn where_nothing_is_put_nothing_is_answered(rt: HostRuntime) -> Result<(), Fail> {
    check_text(&rt, rt.alloc(), b"net,2,2,2\nend,1\n", b"end,1\n")
}

const ENDPOINTS: u16 = 256;

const PACKETS: u16 = 6;

// What an endpoint puts: its reset, no bytes, the reset of the next endpoint, bytes of no version, its request, and this again.
fn put_many(alloc: Global, text: &mut Vec<u8>, endpoint: u16, place: u16) -> Result<(), Fail> {
    let next = (endpoint % ENDPOINTS + 1) % ENDPOINTS;
    let slots = endpoint % ENDPOINTS + 1;
    let row = match place {
        0 => format!(in alloc; "put,{endpoint},0102{endpoint:04x}00000001\n")?,
        1 => format!(in alloc; "put,{endpoint},\n")?,
        2 => format!(in alloc; "put,{endpoint},0102{next:04x}00000001\n")?,
        3 => format!(in alloc; "put,{endpoint},0302{endpoint:04x}00000001\n")?,
        _ => format!(in alloc;
            "put,{endpoint},0101{endpoint:04x}00000001000000010000000000000000000000000001{next:04x}{slots:08x}\n"
        )?,
    };
    text.extend_from_slice(row.as_bytes())?;
    Ok(())
}

// What is told of an endpoint's packets.
fn answer_many(alloc: Global, text: &mut Vec<u8>, endpoint: u16) -> Result<(), Fail> {
    let names = ["ok", "short", "notmine", "version", "ok", "repeat"];
    for (place, name) in names.iter().enumerate() {
        let line = format!(in alloc; "answer,{endpoint},{place},{name}\n")?;
        text.extend_from_slice(line.as_bytes())?;
    }
    Ok(())
}

// All endpoints of the greatest net put packets, the last one first.
#[test]
fn many_endpoints_put_packets(rt: HostRuntime) -> Result<(), Fail> {
    let alloc = rt.alloc();
    let mut text = Vec::new(alloc);
    text.extend_from_slice(b"net,64,4,4\n")?;
    for place in 0..PACKETS {
        for endpoint in 1..ENDPOINTS + 1 {
            put_many(alloc, &mut text, ENDPOINTS - endpoint, place)?;
        }
    }
    text.extend_from_slice(b"end,1\n")?;
    let mut told = Vec::new(alloc);
    for endpoint in 0..ENDPOINTS {
        answer_many(alloc, &mut told, endpoint)?;
    }
    for endpoint in 0..ENDPOINTS {
        let next = (endpoint % ENDPOINTS + 1) % ENDPOINTS;
        let slots = endpoint % ENDPOINTS + 1;
        let line = format!(in alloc; "batch,0,{endpoint},{next},0,{slots}\n")?;
        told.extend_from_slice(line.as_bytes())?;
    }
    told.extend_from_slice(b"end,1\n")?;
    check_text(&rt, alloc, &text, &told)
}
