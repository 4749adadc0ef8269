ghost use Rattle.std.specs.Prelude.{◌≡◌, ◌++◌, codes, Some, IfSome};
ghost use Rattle.report_text.specs.Lines.{line_bytes, IsLine, HasName};
ghost use Rattle.report_text.specs.declared.line.Line.{Line};

use crate::Line;
use crate::fields::{
    ENDPOINT, NUMBER, SUM, field_len, flag, read_all, read_core, read_name, read_numbers,
};

/// Reads a line from its bytes without the line feed. `None` where they spell no line: where the name is none, a field
/// is missing or too many, or a number is not in plain decimal or does not fit.
pub fn read_line(bytes: &[u8]) -> Option<Line>
    ensures spelled { IfSome result (λ line. bytes.now ≡ line_bytes line) }
    ensures named { IfSome result (λ line. HasName line) }
    ensures fits { IfSome result (λ line. IsLine line) }
    ensures only { (line : Line) → IsLine line → bytes.now ≡ line_bytes line → result ≡ Some line }
{
    let (name, values) = bytes.split_at(field_len(bytes));
    match name {
        b"batch" => read_batch(values),
        b"slot" => read_slot(values),
        b"sent" => read_sent(values),
        b"refused" => read_refused(values),
        b"flow" => read_flow(values),
        b"count" => read_count(values),
        b"end" => read_end(values),
        b"made" => read_made(values),
        _ => None,
    }
}

fn read_batch(text: &[u8]) -> Option<Line>
    ensures spelled { IfSome result (λ line. codes "batch" ++ text.now ≡ line_bytes line) }
    ensures named { IfSome result (λ line. HasName line) }
    ensures fits { IfSome result (λ line. IsLine line) }
    ensures only { (line : Line) → IsLine line → codes "batch" ++ text.now ≡ line_bytes line → result ≡ Some line }
{
    let mut values = [NUMBER, ENDPOINT, ENDPOINT, 1, NUMBER];
    if !read_all(text, &mut values) {
        return None;
    }
    let [batch, src, dst, clear, add] = values;
    Some(Line::Batch {
        batch: batch as u32,
        src: src as u16,
        dst: dst as u16,
        clear: flag(clear),
        add: add as u32,
    })
}

fn read_slot(text: &[u8]) -> Option<Line>
    ensures spelled { IfSome result (λ line. codes "slot" ++ text.now ≡ line_bytes line) }
    ensures named { IfSome result (λ line. HasName line) }
    ensures fits { IfSome result (λ line. IsLine line) }
    ensures only { (line : Line) → IsLine line → codes "slot" ++ text.now ≡ line_bytes line → result ≡ Some line }
{
    let mut values = [NUMBER, ENDPOINT, ENDPOINT];
    let rest = read_numbers(text, &mut values)?;
    let [slot, src, dst] = values;
    Some(Line::Slot {
        slot: slot as u32,
        src: src as u16,
        dst: dst as u16,
        core: read_core(rest)?,
    })
}

fn read_sent(text: &[u8]) -> Option<Line>
    ensures spelled { IfSome result (λ line. codes "sent" ++ text.now ≡ line_bytes line) }
    ensures named { IfSome result (λ line. HasName line) }
    ensures fits { IfSome result (λ line. IsLine line) }
    ensures only { (line : Line) → IsLine line → codes "sent" ++ text.now ≡ line_bytes line → result ≡ Some line }
{
    let mut values = [NUMBER, ENDPOINT, ENDPOINT];
    if !read_all(text, &mut values) {
        return None;
    }
    let [slot, src, dst] = values;
    Some(Line::Sent {
        slot: slot as u32,
        src: src as u16,
        dst: dst as u16,
    })
}

fn read_refused(text: &[u8]) -> Option<Line>
    ensures spelled { IfSome result (λ line. codes "refused" ++ text.now ≡ line_bytes line) }
    ensures named { IfSome result (λ line. HasName line) }
    ensures fits { IfSome result (λ line. IsLine line) }
    ensures only { (line : Line) → IsLine line → codes "refused" ++ text.now ≡ line_bytes line → result ≡ Some line }
{
    let mut values = [NUMBER];
    let rest = read_numbers(text, &mut values)?;
    let [round] = values;
    Some(Line::Refused {
        round: round as u32,
        number: read_name(rest)?,
    })
}

fn read_flow(text: &[u8]) -> Option<Line>
    ensures spelled { IfSome result (λ line. codes "flow" ++ text.now ≡ line_bytes line) }
    ensures named { IfSome result (λ line. HasName line) }
    ensures fits { IfSome result (λ line. IsLine line) }
    ensures only { (line : Line) → IsLine line → codes "flow" ++ text.now ≡ line_bytes line → result ≡ Some line }
{
    let mut values = [ENDPOINT, ENDPOINT, NUMBER, NUMBER, NUMBER];
    if !read_all(text, &mut values) {
        return None;
    }
    let [src, dst, demanded, allocated, pending] = values;
    Some(Line::Flow {
        src: src as u16,
        dst: dst as u16,
        demanded: demanded as u32,
        allocated: allocated as u32,
        pending: pending as u32,
    })
}

fn read_count(text: &[u8]) -> Option<Line>
    ensures spelled { IfSome result (λ line. codes "count" ++ text.now ≡ line_bytes line) }
    ensures named { IfSome result (λ line. HasName line) }
    ensures fits { IfSome result (λ line. IsLine line) }
    ensures only { (line : Line) → IsLine line → codes "count" ++ text.now ≡ line_bytes line → result ≡ Some line }
{
    let mut values = [
        ENDPOINT, ENDPOINT, NUMBER, NUMBER, NUMBER, NUMBER, NUMBER, NUMBER, NUMBER,
    ];
    if !read_all(text, &mut values) {
        return None;
    }
    let [
        src,
        dst,
        demanded,
        acknowledged,
        flight,
        pending,
        lost,
        sent,
        missed,
    ] = values;
    Some(Line::Count {
        src: src as u16,
        dst: dst as u16,
        demanded: demanded as u32,
        acknowledged: acknowledged as u32,
        flight: flight as u32,
        pending: pending as u32,
        lost: lost as u32,
        sent: sent as u32,
        missed: missed as u32,
    })
}

fn read_end(text: &[u8]) -> Option<Line>
    ensures spelled { IfSome result (λ line. codes "end" ++ text.now ≡ line_bytes line) }
    ensures named { IfSome result (λ line. HasName line) }
    ensures fits { IfSome result (λ line. IsLine line) }
    ensures only { (line : Line) → IsLine line → codes "end" ++ text.now ≡ line_bytes line → result ≡ Some line }
{
    let mut values = [NUMBER];
    if !read_all(text, &mut values) {
        return None;
    }
    let [rounds] = values;
    Some(Line::End {
        rounds: rounds as u32,
    })
}

fn read_made(text: &[u8]) -> Option<Line>
    ensures spelled { IfSome result (λ line. codes "made" ++ text.now ≡ line_bytes line) }
    ensures named { IfSome result (λ line. HasName line) }
    ensures fits { IfSome result (λ line. IsLine line) }
    ensures only { (line : Line) → IsLine line → codes "made" ++ text.now ≡ line_bytes line → result ≡ Some line }
{
    let mut values = [NUMBER, NUMBER, SUM, SUM, SUM, SUM, SUM, SUM, SUM];
    if !read_all(text, &mut values) {
        return None;
    }
    let [
        number,
        flows,
        demanded,
        acknowledged,
        flight,
        pending,
        lost,
        sent,
        missed,
    ] = values;
    Some(Line::Made {
        number: number as u32,
        flows: flows as u32,
        demanded,
        acknowledged,
        flight,
        pending,
        lost,
        sent,
        missed,
    })
}
