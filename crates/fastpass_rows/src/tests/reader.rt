ghost use Rattle.std.specs.Prelude.{◌<◌};

// The text of a replay, taken apart by loops of its own: what each line says is counted again from the other lines.
use super::run_on;
use report_text::{Line, read_line};
use std::alloc::{AllocError, Global};
use std::process::Abort;
use std::test::Fail;

const HOSTS: u16 = 3;

const CORES: u16 = 3;

const ENDPOINTS: u16 = 9;

const FLOWS: usize = 81;

const ROUNDS: u32 = 80;

const BATCH: u32 = 4;

/// A linear congruential generator.
fn draw(state: &mut u64, below: u32) -> u32
    requires { 0 < below }
{
    *state = state
        .wrapping_mul(6_364_136_223_846_793_005)
        .wrapping_add(1);
    ((*state >> 33) % u64::from(below)) as u32
}

// In each round two asks; and of each endpoint's packets some are lost, held or doubled, and some endpoints boot.
fn random_trace(alloc: Global, state: &mut u64) -> Result<Vec<u8>, AllocError> {
    let mut trace = Vec::new(alloc);
    trace.extend_from_slice(b"net,3,3,3\n")?;
    for round in 0..ROUNDS {
        for _ in 0..2 {
            let src = draw(state, 9);
            let dst = (u64::from(src) + 1 + u64::from(draw(state, 8))) % 9;
            let slots = 1 + u64::from(draw(state, 9));
            let row = format!(in alloc; "ask,{round},{src},{dst},{slots}\n")?;
            trace.extend_from_slice(row.as_bytes())?;
        }
        for endpoint in 0..ENDPOINTS {
            for way in ["up", "down"] {
                let rounds = 1 + u64::from(draw(state, 6));
                let row = match draw(state, 20) {
                    0 => format!(in alloc; "lose,{round},{endpoint},{way}\n")?,
                    1 => format!(in alloc; "hold,{round},{endpoint},{way},{rounds}\n")?,
                    2 => format!(in alloc; "twice,{round},{endpoint},{way}\n")?,
                    _ => String::new(alloc),
                };
                trace.extend_from_slice(row.as_bytes())?;
            }
            if draw(state, 200) == 0 {
                let row = format!(in alloc; "boot,{round},{endpoint}\n")?;
                trace.extend_from_slice(row.as_bytes())?;
            }
        }
    }
    trace.extend_from_slice(b"end,80\n")?;
    Ok(trace)
}

fn lines_of(rt: &impl Abort, alloc: Global, text: &[u8]) -> Result<Vec<Line>, AllocError> {
    let mut lines = Vec::new(alloc);
    for bytes in text.split(|byte| *byte == b'\n') {
        match read_line(bytes) {
            Some(line) => lines.push(line)?,
            None => assert!(rt; bytes.is_empty()),
        }
    }
    Ok(lines)
}

fn place(rt: &impl Abort, src: u16, dst: u16) -> usize
    ensures { result < 81 }
{
    assert!(rt; src < ENDPOINTS && dst < ENDPOINTS && src != dst);
    usize::from(src) * 9 + usize::from(dst)
}

// What is needed of each flow, and what was added since the last reset, with the entries of a batch.
fn apply_batch(
    rt: &impl Abort,
    lines: &[Line],
    number: u32,
    needs: &mut [u32; FLOWS],
    added: &mut [u32; FLOWS],
) {
    for line in lines {
        if let Line::Batch {
            batch,
            src,
            dst,
            clear,
            add,
        } = *line
        {
            if batch == number {
                let at = place(rt, src, dst);
                if clear {
                    needs[at] = 0;
                    added[at] = 0;
                }
                needs[at] = needs[at].saturating_add(add);
                added[at] = added[at].saturating_add(add);
            }
        }
    }
}

fn use_once(rt: &impl Abort, used: &mut [bool; 9], at: usize) {
    assert!(rt; at < 9 && !used[at]);
    used[at] = true;
}

// The link between an endpoint's rack and a core.
fn link(endpoint: u16, core: u16) -> usize {
    usize::from(endpoint / HOSTS) * usize::from(CORES) + usize::from(core)
}

// The slot's packets use no endpoint and no link twice and take of what is needed; of what is left each has an end in use.
fn read_slot(rt: &impl Abort, lines: &[Line], number: u32, needs: &mut [u32; FLOWS]) {
    let mut sends = [false; 9];
    let mut hears = [false; 9];
    let mut rises = [false; 9];
    let mut falls = [false; 9];
    for line in lines {
        if let Line::Slot {
            slot,
            src,
            dst,
            core,
        } = *line
        {
            if slot == number {
                let at = place(rt, src, dst);
                assert!(rt; needs[at] > 0);
                needs[at] = needs[at].saturating_sub(1);
                use_once(rt, &mut sends, usize::from(src));
                use_once(rt, &mut hears, usize::from(dst));
                assert_eq!(rt; core.is_some(), src / HOSTS != dst / HOSTS);
                if let Some(core) = core {
                    assert!(rt; core < CORES);
                    use_once(rt, &mut rises, link(src, core));
                    use_once(rt, &mut falls, link(dst, core));
                }
            }
        }
    }
    for src in 0..9usize {
        for dst in 0..9usize {
            assert!(rt; needs[src * 9 + dst] == 0 || sends[src] || hears[dst]);
        }
    }
}

// How many slot lines a packet has, and how many lines are sent of a slot and source.
fn slots_of(lines: &[Line], number: u32, from: u16, to: u16) -> u32 {
    let mut found = 0u32;
    for line in lines {
        if let Line::Slot { slot, src, dst, .. } = *line {
            if slot == number && src == from && dst == to {
                found = found.saturating_add(1);
            }
        }
    }
    found
}

fn sends_of(lines: &[Line], number: u32, from: u16) -> u32 {
    let mut found = 0u32;
    for line in lines {
        if let Line::Sent { slot, src, .. } = *line {
            if slot == number && src == from {
                found = found.saturating_add(1);
            }
        }
    }
    found
}

// What is sent is of one slot line, and nothing else is sent of its slot and source.
fn read_sends(rt: &impl Abort, lines: &[Line]) -> u32 {
    let mut sends = 0u32;
    for line in lines {
        if let Line::Sent { slot, src, dst } = *line {
            assert_eq!(rt; slots_of(lines, slot, src, dst), 1);
            assert_eq!(rt; sends_of(lines, slot, src), 1);
            sends = sends.saturating_add(1);
        }
    }
    sends
}

// Each flow's counts, of what its batches added since the last reset and of what is needed at the end.
fn read_counts(rt: &impl Abort, lines: &[Line], needs: &[u32; FLOWS], added: &[u32; FLOWS]) -> u32 {
    let mut lost_slots = 0u32;
    for line in lines {
        if let Line::Count {
            src,
            dst,
            demanded,
            acknowledged,
            flight,
            pending,
            lost,
            ..
        } = *line
        {
            let at = place(rt, src, dst);
            assert_eq!(rt;
                u64::from(demanded),
                u64::from(acknowledged) + u64::from(flight) + u64::from(pending)
            );
            assert_eq!(rt; pending, needs[at]);
            assert_eq!(rt; u64::from(added[at]), u64::from(demanded) + u64::from(lost));
            lost_slots = lost_slots.saturating_add(lost);
        }
    }
    lost_slots
}

// Three replays with losses, holds, doubles and boots.
#[test]
fn replays_are_read_line_by_line(rt: HostRuntime) -> Result<(), Fail> {
    let alloc = rt.alloc();
    let mut state = 28;
    for _ in 0..3 {
        let trace = random_trace(alloc, &mut state)?;
        let came = run_on(
            &rt,
            alloc,
            &["replay", "--batch", "4", "--window", "3"],
            &trace,
        )?;
        assert_eq!(rt; came.status, 0);
        let lines = lines_of(&rt, alloc, came.out.held())?;
        let mut needs = [0u32; FLOWS];
        let mut added = [0u32; FLOWS];
        for batch in 0..ROUNDS {
            apply_batch(&rt, &lines, batch, &mut needs, &mut added);
            for slot in batch * BATCH + 1..=batch * BATCH + BATCH {
                read_slot(&rt, &lines, slot, &mut needs);
            }
        }
        assert!(rt; read_sends(&rt, &lines) > 400);
        assert!(rt; read_counts(&rt, &lines, &needs, &added) > 0);
    }
    Ok(())
}
