use super::run_with_any_workers;
use report_text::{Line, read_line};
use std::alloc::{AllocError, Global};
use std::process::Abort;
use std::test::Fail;

const RACKS: u16 = 4;

const HOSTS: u16 = 4;

const CORES: u16 = 4;

// Three racks of two with two cores: the fourth packet finds no core that is free at both its racks, and one path is flipped.
#[test]
fn a_path_is_flipped_for_the_fourth_packet(rt: HostRuntime) -> Result<(), Fail> {
    let came = run_with_any_workers(
        &rt,
        rt.alloc(),
        &["plan", "--batch", "1"],
        b"net,3,2,2\nask,0,0,2,1\nask,0,1,4,1\nask,0,2,0,1\nask,0,3,5,1\nend,1\n",
    )?;
    assert_eq!(rt; came.status, 0);
    assert!(rt;
        came.out.held()
            == b"batch,0,0,2,0,1\nbatch,0,1,4,0,1\nbatch,0,2,0,0,1\nbatch,0,3,5,0,1\nslot,1,0,2,1\nslot,1,1,4,0\nslot,1,2,0,0\nslot,1,3,5,1\nflow,0,2,1,1,0\nflow,1,4,1,1,0\nflow,2,0,1,1,0\nflow,3,5,1,1,0\nend,1\n".as_slice()
    );
    assert!(rt; came.notes.held().is_empty());
    Ok(())
}

// A core is named only for the packet that leaves its rack.
#[test]
fn packets_within_a_rack_take_no_core(rt: HostRuntime) -> Result<(), Fail> {
    let came = run_with_any_workers(
        &rt,
        rt.alloc(),
        &["plan", "--batch", "1"],
        b"net,2,2,2\nask,0,0,1,1\nask,0,1,2,1\nask,0,3,2,1\nend,2\n",
    )?;
    assert_eq!(rt; came.status, 0);
    assert!(rt;
        came.out.held()
            == b"batch,0,0,1,0,1\nbatch,0,1,2,0,1\nbatch,0,3,2,0,1\nslot,1,0,1,-\nslot,1,1,2,0\nslot,2,3,2,-\nflow,0,1,1,1,0\nflow,1,2,1,1,0\nflow,3,2,1,1,0\nend,2\n".as_slice()
    );
    Ok(())
}

// Racks with more hosts than cores.
#[test]
fn a_rack_sends_and_receives_as_many_packets_as_there_are_cores(
    rt: HostRuntime,
) -> Result<(), Fail> {
    let cases: [(&[u8], &[u8]); 4] = [
        // Two cores carry two of four packets between two racks.
        (
            b"net,2,4,2\nask,0,0,4,1\nask,0,1,5,1\nask,0,2,6,1\nask,0,3,7,1\nend,1\n",
            b"batch,0,0,4,0,1\nbatch,0,1,5,0,1\nbatch,0,2,6,0,1\nbatch,0,3,7,0,1\nslot,1,0,4,0\nslot,1,1,5,1\nslot,2,2,6,0\nslot,2,3,7,1\nflow,0,4,1,1,0\nflow,1,5,1,1,0\nflow,2,6,1,1,0\nflow,3,7,1,1,0\nend,1\n",
        ),
        // A packet within a rack needs none.
        (
            b"net,2,4,2\nask,0,0,1,1\nask,0,0,4,1\nask,0,1,5,1\nask,0,2,6,1\nask,0,3,7,1\nend,1\n",
            b"batch,0,0,1,0,1\nbatch,0,0,4,0,1\nbatch,0,1,5,0,1\nbatch,0,2,6,0,1\nbatch,0,3,7,0,1\nslot,1,0,1,-\nslot,1,1,5,0\nslot,1,2,6,1\nslot,2,0,4,0\nslot,2,3,7,1\nflow,0,1,1,1,0\nflow,0,4,1,1,0\nflow,1,5,1,1,0\nflow,2,6,1,1,0\nflow,3,7,1,1,0\nend,1\n",
        ),
        // One rack sends to two others, and each of these would have a core left.
        (
            b"net,3,2,1\nask,0,0,2,1\nask,0,1,4,1\nask,0,3,5,1\nend,1\n",
            b"batch,0,0,2,0,1\nbatch,0,1,4,0,1\nbatch,0,3,5,0,1\nslot,1,0,2,0\nslot,1,3,5,0\nslot,2,1,4,0\nflow,0,2,1,1,0\nflow,1,4,1,1,0\nflow,3,5,1,1,0\nend,1\n",
        ),
        // One rack receives from two others.
        (
            b"net,3,2,1\nask,0,0,4,1\nask,0,2,5,1\nask,0,3,0,1\nend,1\n",
            b"batch,0,0,4,0,1\nbatch,0,2,5,0,1\nbatch,0,3,0,0,1\nslot,1,0,4,0\nslot,1,3,0,0\nslot,2,2,5,0\nflow,0,4,1,1,0\nflow,2,5,1,1,0\nflow,3,0,1,1,0\nend,1\n",
        ),
    ];
    for (trace, text) in cases.iter() {
        let came = run_with_any_workers(&rt, rt.alloc(), &["plan", "--batch", "2"], trace)?;
        assert_eq!(rt; came.status, 0);
        assert!(rt; came.out.held() == *text);
    }
    Ok(())
}

// 130 sources in three racks ask for a slot each to one destination.
pub(super) fn many_to_one(alloc: Global) -> Result<Vec<u8>, AllocError> {
    let mut trace = Vec::new(alloc);
    trace.extend_from_slice(b"net,3,44,44\n")?;
    for source in 1..=130 {
        let line = format!(in alloc; "ask,0,{source},0,1\n")?;
        trace.extend_from_slice(line.as_bytes())?;
    }
    trace.extend_from_slice(b"end,20\n")?;
    Ok(trace)
}

// 130 sources, in the order of their numbers, send to one destination one after the other.
#[test]
fn equal_demands_keep_their_order(rt: HostRuntime) -> Result<(), Fail> {
    let trace = many_to_one(rt.alloc())?;
    let came = run_with_any_workers(&rt, rt.alloc(), &["plan"], &trace)?;
    assert_eq!(rt; came.status, 0);
    let mut source = 0u16;
    for bytes in came.out.held().split(|byte| *byte == b'\n') {
        let Some(
            Line::Slot {
                slot,
                src,
                dst,
                core,
            },
        ) = read_line(bytes)
        else {
            continue;
        };
        source = source.saturating_add(1);
        let expected = if source < 44 { None } else { Some(0) };
        assert_eq!(rt;
            (slot, src, dst, core),
            (u32::from(source), source, 0, expected)
        );
    }
    assert_eq!(rt; source, 130);
    Ok(())
}

// The links that the packets of a slot use, each by its end and its core.
#[derive(Clone, Copy)]
struct Links {
    up: [bool; 16],
    rise: [bool; 16],
    fall: [bool; 16],
    down: [bool; 16],
}

const UNUSED: Links = Links {
    up: [false; 16],
    rise: [false; 16],
    fall: [false; 16],
    down: [false; 16],
};

fn use_link(rt: &impl Abort, links: &mut [bool], at: u16) {
    let at = usize::from(at);
    assert!(rt; at < links.len());
    assert!(rt; !links[at]);
    links[at] = true;
}

fn use_links(rt: &impl Abort, links: &mut Links, src: u16, dst: u16, core: Option<u16>) {
    assert!(rt; src < RACKS * HOSTS);
    assert!(rt; dst < RACKS * HOSTS);
    use_link(rt, &mut links.up, src);
    use_link(rt, &mut links.down, dst);
    assert_eq!(rt; core.is_some(), src / HOSTS != dst / HOSTS);
    if let Some(core) = core {
        assert!(rt; core < CORES);
        use_link(rt, &mut links.rise, src / HOSTS * CORES + core);
        use_link(rt, &mut links.fall, dst / HOSTS * CORES + core);
    }
}

// In each of the eight rounds every endpoint asks for eight slots to one other rack.
fn busy_trace(alloc: Global) -> Result<Vec<u8>, AllocError> {
    let mut trace = Vec::new(alloc);
    trace.extend_from_slice(b"net,4,4,4\n")?;
    for round in 0..8u16 {
        for src in 0..RACKS * HOSTS {
            let host = (src % HOSTS + round) % HOSTS;
            let rack = (src / HOSTS + 1 + host % 3) % RACKS;
            let dst = rack * HOSTS + host;
            let line = format!(in alloc; "ask,{round},{src},{dst},8\n")?;
            trace.extend_from_slice(line.as_bytes())?;
        }
    }
    trace.extend_from_slice(b"end,8\n")?;
    Ok(trace)
}

// Four racks of four with four cores, and every endpoint sends to another rack in each of 64 slots.
#[test]
fn no_link_is_used_twice_in_a_busy_network(rt: HostRuntime) -> Result<(), Fail> {
    let alloc = rt.alloc();
    let trace = busy_trace(alloc)?;
    let came = run_with_any_workers(&rt, rt.alloc(), &["plan"], &trace)?;
    assert_eq!(rt; came.status, 0);
    let mut links = UNUSED;
    let mut last = 0u32;
    let mut packets = 0u32;
    for bytes in came.out.held().split(|byte| *byte == b'\n') {
        let Some(
            Line::Slot {
                slot,
                src,
                dst,
                core,
            },
        ) = read_line(bytes)
        else {
            continue;
        };
        if slot != last {
            links = UNUSED;
            last = slot;
        }
        use_links(&rt, &mut links, src, dst, core);
        packets = packets.saturating_add(1);
    }
    assert_eq!(rt; last, 64);
    assert_eq!(rt; packets, 64 * 16);
    Ok(())
}
