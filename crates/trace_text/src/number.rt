// The numbers of a trace.
ghost use Rattle.std.specs.Prelude.{◌≡◌, ◌<◌, ◌≤◌, ◌+◌, ◌*◌, true, false, length, take, slice_index, IfSome, MatchOption};
ghost use Rattle.std.specs.Char.{is_ascii_digit};
ghost use Rattle.std.specs.List.{list_all};
ghost use Rattle.std.specs.Str.Parse.{digits_value};
ghost use Rattle.trace_text.specs.Fields.{has_shape, is_number, number_of};
ghost use Rattle.trace_text.specs.Lines.{IsLonger, IsNumberBefore, IsNumberAt};

const MOST_DIGITS: usize = 10;

// The byte that writes 0.
const ZERO: u32 = 48;

/// The number that a field writes: plain decimal without a leading zero, up to the greatest u32.
pub fn read_number(text: &[u8]) -> Option<u32>
    ensures { MatchOption result (is_number text.now ≡ false) (λ n. (is_number text.now ≡ true) × (n ≡ number_of text.now)) }
{
    if !has_shape(text) {
        return None;
    }
    let mut value: u64 = 0;
    for byte in text {
        if !byte.is_ascii_digit() {
            return None;
        }
        value = value * 10 + u64::from(*byte - b'0');
        if value > u64::from(u32::MAX) {
            return None;
        }
    }
    Some(value as u32)
}

#[inline(always)]
fn has_shape(text: &[u8]) -> bool
    ensures { result ≡ has_shape text.now }
{
    !text.is_empty() && text.len() <= MOST_DIGITS && !(text.len() > 1 && text[0] == b'0')
}

/// The number that a text begins with, as a field writes one, and what stands behind the byte that ends it.
pub fn number_before(text: &[u8], end: u8) -> Option<(u32, &[u8])>
    ensures { IfSome result (λ r. IsNumberBefore text.now end r.0 r.1.now) }
{
    let mut value: u64 = 0;
    for at in 0..text.len() {
        if text[at] == end {
            return number_at_front(text, at, value);
        }
        value = digit_more(text, at, value)?;
        if value > u64::from(u32::MAX) {
            return None;
        }
    }
    None
}

// The number of the digits before a place and of the one that stands there.
#[inline(always)]
fn digit_more(text: &[u8], at: usize, value: u64) -> Option<u64>
    requires within { at < length text.now }
    requires digits { list_all is_ascii_digit (take at text.now) ≡ true }
    requires value { value ≡ digits_value 10 (take at text.now) }
    requires small { value ≤ 4294967295 }
    ensures digits { IfSome result (λ more. list_all is_ascii_digit (take (at + 1) text.now) ≡ true) }
    ensures value { IfSome result (λ more. more ≡ digits_value 10 (take (at + 1) text.now)) }
    ensures small { IfSome result (λ more. more ≤ value * 10 + 9) }
{
    let byte = text[at];
    if !byte.is_ascii_digit() {
        return None;
    }
    Some(value * 10 + u64::from(byte - b'0'))
}

// The number of the digits before a place, if they have its shape, and what stands behind the byte there.
#[inline(always)]
fn number_at_front(text: &[u8], at: usize, value: u64) -> Option<(u32, &[u8])>
    requires within { at < length text.now }
    requires digits { list_all is_ascii_digit (take at text.now) ≡ true }
    requires value { value ≡ digits_value 10 (take at text.now) }
    requires small { value ≤ 4294967295 }
    ensures { IfSome result (λ r. IsNumberBefore text.now (slice_index text.now at) r.0 r.1.now) }
{
    if !has_shape(&text[..at]) {
        return None;
    }
    Some((value as u32, &text[at + 1..]))
}

/// The number that stands at a place, and the place behind its digits, of which there are at most three; 0 has one.
#[inline(always)]
pub fn short_number(text: &[u8], at: usize) -> Option<(u32, usize)>
    requires { at + 3 ≤ length text.now }
    ensures { IfSome result (λ r. IsNumberAt text.now at r.0 r.1) }
{
    let Some(first) = digit_above_0(text[at]) else {
        return zero(text, at);
    };
    let Some(second) = digit(text[at + 1]) else {
        return Some((first, at + 1));
    };
    Some(longer(text, at + 2, first * 10 + second))
}

/// The number from 1 to 99 that stands at a place, and the place behind its digits.
#[inline(always)]
pub fn number_below_100(text: &[u8], at: usize) -> Option<(u32, usize)>
    requires { at + 2 ≤ length text.now }
    ensures { IfSome result (λ r. IsNumberAt text.now at r.0 r.1) }
{
    let first = digit_above_0(text[at])?;
    Some(longer(text, at + 1, first))
}

// The number with the digit that stands at a place, if one does, and the place behind it. There is no branch, since nothing tells
// ahead how long a number is.
#[inline(always)]
fn longer(text: &[u8], at: usize, number: u32) -> (u32, usize)
    requires within { at < length text.now }
    requires small { number ≤ 99 }
    ensures { IsLonger (slice_index text.now at) number result.0 at result.1 }
{
    let digit = u32::from(text[at]).wrapping_sub(ZERO);
    let more = digit < 10;
    let longer = if more { number * 10 + digit } else { number };
    (longer, at + usize::from(more))
}

// The same of the number 0.
#[inline(always)]
fn zero(text: &[u8], at: usize) -> Option<(u32, usize)>
    requires { at < length text.now }
    ensures { IfSome result (λ r. IsNumberAt text.now at r.0 r.1) }
{
    let number = digit(text[at])?;
    if number > 0 {
        return None;
    }
    Some((number, at + 1))
}

// The number that a byte writes, if it is a digit.
#[inline(always)]
fn digit(byte: u8) -> Option<u32>
    ensures { IfSome result (λ digit. (is_ascii_digit byte ≡ true) × (byte ≡ 48 + digit) × (digit < 10)) }
{
    let digit = u32::from(byte).wrapping_sub(ZERO);
    if digit < 10 { Some(digit) } else { None }
}

// The same of a digit above 0.
#[inline(always)]
fn digit_above_0(byte: u8) -> Option<u32>
    ensures { IfSome result (λ digit. (is_ascii_digit byte ≡ true) × (byte ≡ 48 + digit) × (digit < 10) × (0 < digit)) }
{
    let more = u32::from(byte).wrapping_sub(ZERO + 1);
    if more < 9 { Some(more + 1) } else { None }
}
