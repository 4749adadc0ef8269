//! The frequent lines, read where they stand at the front of a text.
ghost use Rattle.std.specs.Prelude.{◌≡◌, ◌<◌, ◌≤◌, ◌+◌, ◌∷◌, ◌++◌, codes, decimal, length, slice_index, take, IfSome};
ghost use Rattle.report_text.specs.Lines.{core_field, line_bytes, IsLine, endpoint_most, number_most};

use report_text::Line;

/// The most that the field of an endpoint or a core holds, and that of another number.
const ENDPOINT: u64 = 65_535;

const NUMBER: u64 = 4_294_967_295;

/// The number that a byte writes, if it is a digit.
fn digit(byte: u8) -> Option<u64>
    ensures { IfSome result (λ digit. (byte ≡ 48 + digit) × (digit < 10)) }
{
    if byte.is_ascii_digit() {
        Some(u64::from(byte - b'0'))
    } else {
        None
    }
}

/// What stands behind the byte at a place.
fn behind(text: &[u8], at: usize) -> &[u8]
    requires { at < length text.now }
    ensures { text.now ≡ take at text.now ++ slice_index text.now at ∷ result.now }
{
    &text[at + 1..]
}

/// The number that a text begins with, which is at most `most` and which this byte ends, and what stands behind that.
#[inline(always)]
fn number_before(text: &[u8], end: u8, most: u64) -> Option<(u64, &[u8])>
    requires { most ≤ number_most }
    ensures { IfSome result (λ read. (text.now ≡ decimal read.0 ++ end ∷ read.1.now) × (read.0 ≤ most)) }
{
    if text.is_empty() {
        return None;
    }
    let mut value = digit(text[0])?;
    let mut at = 1;
    while at < text.len() && value <= most {
        let byte = text[at];
        if byte == end {
            return Some((value, behind(text, at)));
        }
        if value == 0 {
            return None;
        }
        value = value * 10 + digit(byte)?;
        at += 1;
    }
    None
}

/// The number that a text begins with, which is at most `most` and which this byte ends, and what stands behind that. Most have up
/// to four digits, which are read without a loop.
#[inline(always)]
fn field_before(text: &[u8], end: u8, most: u64) -> Option<(u64, &[u8])>
    requires four { 9999 ≤ most }
    requires most { most ≤ number_most }
    ensures { IfSome result (λ read. (text.now ≡ decimal read.0 ++ end ∷ read.1.now) × (read.0 ≤ most)) }
{
    if text.len() < 5 {
        return number_before(text, end, most);
    }
    let one = digit(text[0])?;
    if text[1] == end {
        return Some((one, behind(text, 1)));
    }
    if one == 0 {
        return None;
    }
    let two = one * 10 + digit(text[1])?;
    if text[2] == end {
        return Some((two, behind(text, 2)));
    }
    let three = two * 10 + digit(text[2])?;
    if text[3] == end {
        return Some((three, behind(text, 3)));
    }
    let four = three * 10 + digit(text[3])?;
    if text[4] == end {
        return Some((four, behind(text, 4)));
    }
    number_before(text, end, most)
}

/// The core that a text begins with, or a hyphen for none, which a line feed ends, and what stands behind that.
#[inline(always)]
fn core_before(text: &[u8]) -> Option<(Option<u16>, &[u8])>
    ensures { IfSome result (λ read. (text.now ≡ core_field read.0 ++ 10 ∷ read.1.now) × IfSome read.0 (λ core. core ≤ endpoint_most)) }
{
    if let [b'-', b'\n', rest @ ..] = text {
        return Some((None, rest));
    }
    let (core, rest) = field_before(text, b'\n', ENDPOINT)?;
    Some((Some(core as u16), rest))
}

#[inline(always)]
fn front_slot(text: &[u8]) -> Option<(Line, &[u8])>
    ensures spelled { IfSome result (λ read. codes "slot," ++ text.now ≡ line_bytes read.0 ++ 10 ∷ read.1.now) }
    ensures fits { IfSome result (λ read. IsLine read.0) }
{
    let (slot, rest) = field_before(text, b',', NUMBER)?;
    let (src, rest) = field_before(rest, b',', ENDPOINT)?;
    let (dst, rest) = field_before(rest, b',', ENDPOINT)?;
    let (core, rest) = core_before(rest)?;
    let line = Line::Slot {
        slot: slot as u32,
        src: src as u16,
        dst: dst as u16,
        core,
    };
    Some((line, rest))
}

#[inline(always)]
fn front_sent(text: &[u8]) -> Option<(Line, &[u8])>
    ensures spelled { IfSome result (λ read. codes "sent," ++ text.now ≡ line_bytes read.0 ++ 10 ∷ read.1.now) }
    ensures fits { IfSome result (λ read. IsLine read.0) }
{
    let (slot, rest) = field_before(text, b',', NUMBER)?;
    let (src, rest) = field_before(rest, b',', ENDPOINT)?;
    let (dst, rest) = field_before(rest, b'\n', ENDPOINT)?;
    let line = Line::Sent {
        slot: slot as u32,
        src: src as u16,
        dst: dst as u16,
    };
    Some((line, rest))
}

#[inline(always)]
fn front_batch(text: &[u8]) -> Option<(Line, &[u8])>
    ensures spelled { IfSome result (λ read. codes "batch," ++ text.now ≡ line_bytes read.0 ++ 10 ∷ read.1.now) }
    ensures fits { IfSome result (λ read. IsLine read.0) }
{
    let (batch, rest) = field_before(text, b',', NUMBER)?;
    let (src, rest) = field_before(rest, b',', ENDPOINT)?;
    let (dst, rest) = field_before(rest, b',', ENDPOINT)?;
    let (clear, rest) = number_before(rest, b',', 1)?;
    let (add, rest) = field_before(rest, b'\n', NUMBER)?;
    let line = Line::Batch {
        batch: batch as u32,
        src: src as u16,
        dst: dst as u16,
        clear: clear == 1,
        add: add as u32,
    };
    Some((line, rest))
}

#[inline(always)]
fn front_flow(text: &[u8]) -> Option<(Line, &[u8])>
    ensures spelled { IfSome result (λ read. codes "flow," ++ text.now ≡ line_bytes read.0 ++ 10 ∷ read.1.now) }
    ensures fits { IfSome result (λ read. IsLine read.0) }
{
    let (src, rest) = field_before(text, b',', ENDPOINT)?;
    let (dst, rest) = field_before(rest, b',', ENDPOINT)?;
    let (demanded, rest) = field_before(rest, b',', NUMBER)?;
    let (allocated, rest) = field_before(rest, b',', NUMBER)?;
    let (pending, rest) = field_before(rest, b'\n', NUMBER)?;
    let line = Line::Flow {
        src: src as u16,
        dst: dst as u16,
        demanded: demanded as u32,
        allocated: allocated as u32,
        pending: pending as u32,
    };
    Some((line, rest))
}

/// The `slot`, `sent`, `batch` or `flow` line that a text begins with, and what stands behind its line feed. `None` where it begins with
/// another line, or with none: `read_line` tells.
#[inline(always)]
pub(crate) fn front_line(text: &[u8]) -> Option<(Line, &[u8])>
    ensures spelled { IfSome result (λ read. text.now ≡ line_bytes read.0 ++ 10 ∷ read.1.now) }
    ensures fits { IfSome result (λ read. IsLine read.0) }
{
    match text {
        [b's', b'l', b'o', b't', b',', fields @ ..] => front_slot(fields),
        [b's', b'e', b'n', b't', b',', fields @ ..] => front_sent(fields),
        [b'b', b'a', b't', b'c', b'h', b',', fields @ ..] => front_batch(fields),
        [b'f', b'l', b'o', b'w', b',', fields @ ..] => front_flow(fields),
        _ => None,
    }
}
