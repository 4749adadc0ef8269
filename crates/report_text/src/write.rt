ghost use Rattle.std.specs.Prelude.{◌≡◌, ◌+◌, ◌*◌, ◌^◌, ◌<◌, ◌≤◌, [], ◌∷◌, ◌++◌, length, take, drop};
ghost use Rattle.report_text.specs.Lines.{line_bytes, number_fields, fields, HasName};
ghost use Rattle.report_text.specs.WrittenAlike.{IsPlanLine, IsCount, IsMade, IsTakeoverLine};

use crate::Line;
use crate::names::{answer_name, event_name};
use itoa::Buffer;

/// The most bytes that a number of 32 bits takes in its field, with the comma.
const NUMBER: usize = 11;
/// The most bytes that a sum takes.
const SUM: usize = 21;

/// Copies bytes to this place, and answers where they end.
fn put(buf: &mut [u8; 192], at: usize, bytes: &[u8]) -> usize
    requires { at + length bytes.now ≤ 192 }
    ensures end { result ≡ at + length bytes.now }
    ensures written { take result buf.new ≡ take at buf.old ++ bytes.now }
    ensures rest { drop result buf.new ≡ drop result buf.old }
{
    let end = at + bytes.len();
    let place = &mut buf[at..end];
    place.copy_from_slice(bytes);
    end
}

/// Spells a number after a comma.
fn put_number(buf: &mut [u8; 192], at: usize, number: u64) -> usize
    requires { at + SUM ≤ 192 }
    ensures end { result ≡ at + length (number_fields (number ∷ [])) }
    ensures fits { result ≤ at + SUM }
    ensures short { number < 2 ^ 32 → result ≤ at + NUMBER }
    ensures written { take result buf.new ≡ take at buf.old ++ number_fields (number ∷ []) }
    ensures rest { drop result buf.new ≡ drop result buf.old }
{
    let mut digits = Buffer::new();
    let at = put(buf, at, b",");
    put(buf, at, digits.format(number).as_bytes())
}

/// Spells a name and its numbers at the front of the buffer.
fn put_all(buf: &mut [u8; 192], name: &[u8], values: &[u32]) -> usize
    requires { length name.now + NUMBER * length values.now + NUMBER ≤ 192 }
    ensures end { result ≡ length (name.now ++ number_fields values.now) }
    ensures fits { result ≤ length name.now + NUMBER * length values.now }
    ensures written { take result buf.new ≡ name.now ++ number_fields values.now }
    ensures rest { drop result buf.new ≡ drop result buf.old }
{
    let mut at = put(buf, 0, name);
    for value in values {
        at = put_number(buf, at, u64::from(*value));
    }
    at
}

/// Spells sums from a place on.
fn put_sums(buf: &mut [u8; 192], start: usize, sums: &[u64]) -> usize
    requires { start + SUM * length sums.now ≤ 192 }
    ensures end { result ≡ start + length (number_fields sums.now) }
    ensures fits { result ≤ start + SUM * length sums.now }
    ensures written { take result buf.new ≡ take start buf.old ++ number_fields sums.now }
    ensures rest { drop result buf.new ≡ drop result buf.old }
{
    let mut at = start;
    for sum in sums {
        at = put_number(buf, at, *sum);
    }
    at
}

/// Writes a line with its line feed at the front of the buffer, and answers the length.
pub fn write_line(line: &Line, buf: &mut [u8; 192]) -> usize
    // Numbers have a name: that of a refusal is 1 to 12, 21 to 24 or 26, of an answer 0 to 12 or 21 to 26, of an event's refusal 0 to 6.
    requires { HasName line.now }
    ensures length { result ≡ length (line_bytes line.now) + 1 }
    ensures within { result ≤ 192 }
    ensures written { take result buf.new ≡ line_bytes line.now ++ 10 ∷ [] }
    ensures rest { drop result buf.new ≡ drop result buf.old }
{
    let at = put_line(line, buf);
    put(buf, at, b"\n")
}

fn put_line(line: &Line, buf: &mut [u8; 192]) -> usize
    requires { HasName line.now }
    ensures end { result ≡ length (line_bytes line.now) }
    ensures fits { result < 192 }
    ensures written { take result buf.new ≡ line_bytes line.now }
    ensures rest { drop result buf.new ≡ drop result buf.old }
{
    match *line {
        Line::Batch { .. } | Line::Flow { .. } => put_plan_line(line, buf),
        Line::Slot {
            slot,
            src,
            dst,
            core,
        } => put_slot(buf, slot, src, dst, core),
        Line::Sent { slot, src, dst } => put_all(buf, b"sent", &[slot, src.into(), dst.into()]),
        Line::Refused { round, number } => {
            put_named(buf, b"refused", &[round], answer_name(number))
        }
        Line::Count { .. } => put_count(line, buf),
        Line::End { rounds } => put_all(buf, b"end", &[rounds]),
        Line::Made { .. } => put_made(line, buf),
        Line::Answer {
            endpoint,
            place,
            number,
        } => put_named(
            buf,
            b"answer",
            &[endpoint.into(), place],
            answer_name(number),
        ),
        Line::Granted { .. }
        | Line::Published { .. }
        | Line::Declined { .. }
        | Line::Total { .. } => put_takeover_line(line, buf),
    }
}

/// Spells what a batch records of a flow, or what became of its demand in a plan.
fn put_plan_line(line: &Line, buf: &mut [u8; 192]) -> usize
    requires { IsPlanLine line.now }
    ensures end { result ≡ length (line_bytes line.now) }
    ensures fits { result < 192 }
    ensures written { take result buf.new ≡ line_bytes line.now }
    ensures rest { drop result buf.new ≡ drop result buf.old }
{
    match *line {
        Line::Batch {
            batch,
            src,
            dst,
            clear,
            add,
        } => put_all(
            buf,
            b"batch",
            &[batch, src.into(), dst.into(), clear.into(), add],
        ),
        Line::Flow {
            src,
            dst,
            demanded,
            allocated,
            pending,
        } => put_all(
            buf,
            b"flow",
            &[src.into(), dst.into(), demanded, allocated, pending],
        ),
        _ => unreachable!(),
    }
}

/// Spells what became of a flow's demand in a replay.
fn put_count(line: &Line, buf: &mut [u8; 192]) -> usize
    requires { IsCount line.now }
    ensures end { result ≡ length (line_bytes line.now) }
    ensures fits { result < 192 }
    ensures written { take result buf.new ≡ line_bytes line.now }
    ensures rest { drop result buf.new ≡ drop result buf.old }
{
    let Line::Count {
        src,
        dst,
        demanded,
        acknowledged,
        flight,
        pending,
        lost,
        sent,
        missed,
    } = *line
    else {
        unreachable!()
    };
    let values = [
        src.into(),
        dst.into(),
        demanded,
        acknowledged,
        flight,
        pending,
        lost,
        sent,
        missed,
    ];
    put_all(buf, b"count", &values)
}

/// Spells what became of all demand in a replay of a made trace.
fn put_made(line: &Line, buf: &mut [u8; 192]) -> usize
    requires { IsMade line.now }
    ensures end { result ≡ length (line_bytes line.now) }
    ensures fits { result < 192 }
    ensures written { take result buf.new ≡ line_bytes line.now }
    ensures rest { drop result buf.new ≡ drop result buf.old }
{
    let Line::Made {
        number,
        flows,
        demanded,
        acknowledged,
        flight,
        pending,
        lost,
        sent,
        missed,
    } = *line
    else {
        unreachable!()
    };
    let at = put_all(buf, b"made", &[number, flows]);
    let sums = [demanded, acknowledged, flight, pending, lost, sent, missed];
    put_sums(buf, at, &sums)
}

/// Spells a line that only a takeover writes.
fn put_takeover_line(line: &Line, buf: &mut [u8; 192]) -> usize
    requires kind { IsTakeoverLine line.now }
    requires named { HasName line.now }
    ensures end { result ≡ length (line_bytes line.now) }
    ensures fits { result < 192 }
    ensures written { take result buf.new ≡ line_bytes line.now }
    ensures rest { drop result buf.new ≡ drop result buf.old }
{
    match *line {
        Line::Granted {
            message,
            node,
            generation,
            first,
        } => put_all(buf, b"granted", &[message, node.into(), generation, first]),
        Line::Published { node, batch } => put_all(buf, b"published", &[node.into(), batch]),
        Line::Declined { row, place } => put_named(buf, b"refused", &[row], event_name(place)),
        Line::Total {
            src,
            dst,
            asked,
            sent,
        } => put_all(buf, b"total", &[src.into(), dst.into(), asked, sent]),
        _ => unreachable!(),
    }
}

fn put_slot(buf: &mut [u8; 192], slot: u32, src: u16, dst: u16, core: Option<u16>) -> usize
    ensures end { result ≡ length (line_bytes (Line.Slot slot src dst core)) }
    ensures fits { result < 192 }
    ensures written { take result buf.new ≡ line_bytes (Line.Slot slot src dst core) }
    ensures rest { drop result buf.new ≡ drop result buf.old }
{
    let at = put_all(buf, b"slot", &[slot, src.into(), dst.into()]);
    match core {
        Some(core) => put_number(buf, at, core.into()),
        None => put(buf, at, b",-"),
    }
}

/// Spells a name, its numbers, and after them another name.
fn put_named(buf: &mut [u8; 192], name: &[u8], values: &[u32], last: &[u8]) -> usize
    requires { length name.now + NUMBER * length values.now + length last.now + NUMBER < 192 }
    ensures end { result ≡ length (name.now ++ number_fields values.now ++ fields (last.now ∷ [])) }
    ensures fits { result < 192 }
    ensures written { take result buf.new ≡ name.now ++ number_fields values.now ++ fields (last.now ∷ []) }
    ensures rest { drop result buf.new ≡ drop result buf.old }
{
    let at = put_all(buf, name, values);
    let at = put(buf, at, b",");
    put(buf, at, last)
}
