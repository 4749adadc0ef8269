ghost use Rattle.std.specs.Prelude.{◌<◌};

// Takeovers of scripts that are drawn, their texts taken apart by loops of their own.
use super::texts::written;
use report_text::{Line, read_line};
use std::alloc::{AllocError, Global};
use std::process::Abort;
use std::test::Fail;

const ENDPOINTS: u32 = 4;

const FLOWS: usize = 16;

/// A linear congruential generator.
fn draw(state: &mut u64, below: u32) -> u32
    requires { 0 < below }
{
    *state = state
        .wrapping_mul(6_364_136_223_846_793_005)
        .wrapping_add(1);
    ((*state >> 33) % u64::from(below)) as u32
}

fn place(rt: &impl Abort, src: u32, dst: u32) -> usize
    ensures { result < 16 }
{
    assert!(rt; src < ENDPOINTS && dst < ENDPOINTS && src != dst);
    src as usize * 4 + dst as usize
}

// What was sent so far to the keeper and by it: the number of each message, and its node.
#[derive(Drop)]
struct Post {
    messages: u32,
    requests: Vec<(u32, u32)>,
    grants: Vec<(u32, u32)>,
}

// One of the last three of these messages.
fn recent(state: &mut u64, messages: &[(u32, u32)]) -> Option<(u32, u32)> {
    let back = 1 + draw(state, 3) as usize;
    messages.get(messages.len().saturating_sub(back)).copied()
}

fn drawn_ask(
    rt: &impl Abort,
    alloc: Global,
    state: &mut u64,
    asked: &mut [u32; FLOWS],
) -> Result<String, AllocError> {
    let src = draw(state, ENDPOINTS);
    let dst = ((u64::from(src) + 1 + u64::from(draw(state, 3))) % 4) as u32;
    let slots = draw(state, 5).saturating_add(1);
    let at = place(rt, src, dst);
    asked[at] = asked[at].saturating_add(slots);
    format!(in alloc; "ask,{src},{dst},{slots}\n")
}

fn drawn_request(alloc: Global, state: &mut u64, post: &mut Post) -> Result<String, AllocError> {
    let node = draw(state, 2);
    post.requests.push((post.messages, node))?;
    post.messages = post.messages.saturating_add(1);
    format!(in alloc; "request,{node}\n")
}

// A grant of a request that was sent, or of none.
fn drawn_grant(alloc: Global, state: &mut u64, post: &mut Post) -> Result<String, AllocError> {
    let Some((request, node)) = recent(state, &post.requests) else {
        return format!(in alloc; "grant,1000\n");
    };
    post.grants.push((post.messages, node))?;
    post.messages = post.messages.saturating_add(1);
    format!(in alloc; "grant,{request}\n")
}

fn drawn_take(alloc: Global, state: &mut u64, post: &Post) -> Result<String, AllocError> {
    let (message, node) = recent(state, &post.grants).unwrap_or((1000, 0));
    format!(in alloc; "take,{node},{message}\n")
}

fn drawn_row(
    rt: &impl Abort,
    alloc: Global,
    state: &mut u64,
    post: &mut Post,
    asked: &mut [u32; FLOWS],
) -> Result<String, AllocError> {
    let src = draw(state, ENDPOINTS);
    let node = draw(state, 2);
    let batch = draw(state, 16);
    match draw(state, 100) {
        0..=14 => drawn_ask(rt, alloc, state, asked),
        15..=21 => drawn_request(alloc, state, post),
        22..=29 => drawn_grant(alloc, state, post),
        30..=41 => drawn_take(alloc, state, post),
        42..=55 => format!(in alloc; "tell,{src},{node}\n"),
        56..=69 => format!(in alloc; "publish,{node}\n"),
        70..=98 => format!(in alloc; "hear,{src},{batch}\n"),
        _ => format!(in alloc; "crash,{node}\n"),
    }
}

// A script of so many events, with what it asks for of each flow.
fn drawn_script(
    rt: &impl Abort,
    alloc: Global,
    state: &mut u64,
    events: u32,
    asked: &mut [u32; FLOWS],
) -> Result<Vec<u8>, AllocError> {
    let b = draw(state, 4).saturating_add(1);
    let lease = draw(state, 3).saturating_add(1);
    let mut script = Vec::new(alloc);
    let first = format!(in alloc; "pair,4,{b},{lease}\n")?;
    script.extend_from_slice(first.as_bytes())?;
    let mut post = Post {
        messages: 0,
        requests: Vec::new(alloc),
        grants: Vec::new(alloc),
    };
    for _ in 0..events {
        let row = drawn_row(rt, alloc, state, &mut post, asked)?;
        script.extend_from_slice(row.as_bytes())?;
    }
    script.extend_from_slice(b"end\n")?;
    Ok(script)
}

// The lines of batches, slots and sends, and the last line.
fn lines_of(alloc: Global, text: &[u8]) -> Result<Vec<Line>, AllocError> {
    let mut lines = Vec::new(alloc);
    for bytes in text.split(|byte| *byte == b'\n') {
        if let Some(line) = read_line(bytes) {
            lines.push(line)?;
        }
    }
    Ok(lines)
}

// How many of the lines give a packet of this slot from this source, and how many one to this destination.
fn slots_of(lines: &[Line], number: u32, from: u16, to: u16) -> (u32, u32) {
    let mut leaving = 0u32;
    let mut entering = 0u32;
    for line in lines {
        if let Line::Slot { slot, src, dst, .. } = *line {
            if slot == number && src == from {
                leaving = leaving.saturating_add(1);
            }
            if slot == number && dst == to {
                entering = entering.saturating_add(1);
            }
        }
    }
    (leaving, entering)
}

// The same of the lines of sends.
fn sends_of(lines: &[Line], number: u32, from: u16, to: u16) -> (u32, u32) {
    let mut leaving = 0u32;
    let mut entering = 0u32;
    for line in lines {
        if let Line::Sent { slot, src, dst } = *line {
            if slot == number && src == from {
                leaving = leaving.saturating_add(1);
            }
            if slot == number && dst == to {
                entering = entering.saturating_add(1);
            }
        }
    }
    (leaving, entering)
}

// Whether one of the lines gives this packet its slot.
fn is_scheduled(lines: &[Line], number: u32, from: u16, to: u16) -> bool {
    for line in lines {
        if let Line::Slot { slot, src, dst, .. } = *line {
            if slot == number && src == from && dst == to {
                return true;
            }
        }
    }
    false
}

// Over both nodes the packets of each slot share no end; what is sent was given its slot before, and no end of it sends or hears
// twice in the slot. Answers how often each flow sent.
fn read_sends(rt: &impl Abort, lines: &[Line]) -> [u32; FLOWS] {
    let mut sends = [0u32; FLOWS];
    for at in 0..lines.len() {
        if let Line::Slot { slot, src, dst, .. } = lines[at] {
            assert!(rt; slots_of(lines, slot, src, dst) == (1, 1));
        }
        if let Line::Sent { slot, src, dst } = lines[at] {
            assert!(rt; is_scheduled(&lines[..at], slot, src, dst));
            assert!(rt; sends_of(lines, slot, src, dst) == (1, 1));
            let flow = place(rt, u32::from(src), u32::from(dst));
            sends[flow] = sends[flow].saturating_add(1);
        }
    }
    sends
}

// How a text ends: what was asked for and sent of each flow, which is not more.
fn totals_of(
    rt: &impl Abort,
    alloc: Global,
    asked: &[u32; FLOWS],
    sends: &[u32; FLOWS],
    events: u32,
) -> Result<Vec<u8>, AllocError> {
    let mut totals = Vec::new(alloc);
    for src in 0..ENDPOINTS {
        for dst in 0..ENDPOINTS {
            if src != dst {
                let at = place(rt, src, dst);
                let slots = asked[at];
                let sent = sends[at];
                assert!(rt; sent <= slots);
                if slots > 0 {
                    let row = format!(in alloc; "total,{src},{dst},{slots},{sent}\n")?;
                    totals.extend_from_slice(row.as_bytes())?;
                }
            }
        }
    }
    let last = events.saturating_add(2);
    let row = format!(in alloc; "end,{last}\n")?;
    totals.extend_from_slice(row.as_bytes())?;
    Ok(totals)
}

// Two runs of each of 10,000 scripts.
#[test]
fn drawn_takeovers_are_read_line_by_line(rt: HostRuntime) -> Result<(), Fail> {
    let alloc = rt.alloc();
    let mut state = 11;
    let mut sent = 0u32;
    for _ in 0..10_000 {
        let events = draw(&mut state, 120);
        let mut asked = [0u32; FLOWS];
        let script = drawn_script(&rt, alloc, &mut state, events, &mut asked)?;
        let (text, result) = written(&rt, alloc, &script, Vec::new(alloc))?;
        assert!(rt; result.is_ok());
        let (again, _) = written(&rt, alloc, &script, Vec::new(alloc))?;
        assert!(rt; text.held() == again.held());
        let lines = lines_of(alloc, text.held())?;
        let sends = read_sends(&rt, &lines);
        let totals = totals_of(&rt, alloc, &asked, &sends, events)?;
        assert!(rt; text.held().ends_with(&totals));
        for count in &sends {
            sent = sent.saturating_add(*count);
        }
    }
    assert!(rt; sent > 1_000);
    Ok(())
}
