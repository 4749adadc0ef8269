// Asks that are read where they stand: plain ones, most by a head, and those between quotes.
ghost use Rattle.std.specs.Prelude.{◌≡◌, ◌+◌, ◌≤◌, [], ◌∷◌, ◌++◌, length, take, drop, slice_index, true, IfSome};
ghost use Rattle.std.specs.Int.{w32, from_le_bytes};
ghost use Rattle.trace_text.specs.Lines.{IsAskBefore, IsAskHead, IsEndBefore, IsLastNumberBefore, IsNumberBefore};

use crate::line::behind_blank_line;
use crate::number::{number_before, number_below_100, short_number};

// A head is kept where it has at most so many bytes, as that of each round has.
const MOST_HEAD: usize = 12;

// So many bytes have a head, three short numbers, the bytes that end these and one more.
const ROOM: usize = 25;

// The bytes of a word.
const WORD: usize = 4;

/// What a row asks for, if its fields are in range.
#[derive(Clone, Copy, Debug, PartialEq, Eq)]
pub struct PlainAsk {
    pub round: u32,
    pub src: u32,
    pub dst: u32,
    pub slots: u32,
}

/// The front of the asks of one round, up to the comma behind the round. Most asks have that of the ask before.
#[derive(Clone, Copy)]
pub struct AskHead<'a> {
    bytes: &'a [u8],
    round: u32,
    ghost says: { IsAskHead bytes.now round },
    ghost short: { length bytes.now ≤ 12 },
}

impl<'a> AskHead<'a> {
    // The head that a text begins with, and what stands behind it.
    fn read(text: &'a [u8]) -> Option<(AskHead<'a>, &'a [u8])>
        ensures { IfSome result (λ r. text.now ≡ r.0.bytes.now ++ r.1.now) }
    {
        let numbers = text.strip_prefix(b"ask,".as_slice())?;
        let (round, rest) = number_before(numbers, b',')?;
        let size = text.len() - rest.len();
        if size > MOST_HEAD {
            return None;
        }
        let (bytes, _) = text.split_at(size);
        Some((AskHead { bytes, round }, rest))
    }

    /// The round of the asks.
    pub fn round(&self) -> u32
        ensures { result ≡ self.now.round }
    {
        self.round
    }

    /// The ask with this head that a text begins with, and what stands behind its line; None where its endpoints have more than three
    /// digits, or the text ends soon.
    #[inline(always)]
    pub fn ask<'b>(&self, text: &'b [u8]) -> Option<(PlainAsk, &'b [u8])>
        ensures ask { IfSome result (λ r. IsAskBefore text.now r.0 r.1.now) }
        ensures round { IfSome result (λ r. r.0.round ≡ self.now.round) }
    {
        if text.len() < ROOM || !self.begins(text) {
            return None;
        }
        let (src, at) = short_number_before(text, self.bytes.len())?;
        let (dst, at) = short_number_before(text, at)?;
        let (slots, rest) = last_number_at(text, at)?;
        let ask = PlainAsk {
            round: self.round,
            src,
            dst,
            slots,
        };
        Some((ask, rest))
    }

    // Whether a text begins with it. Three words, of which the middle one meets both others, are all of its bytes.
    #[inline(always)]
    fn begins(&self, text: &[u8]) -> bool
        requires { 12 ≤ length text.now }
        ensures { result ≡ true → text.now ≡ self.now.bytes.now ++ drop (length self.now.bytes.now) text.now }
    {
        let last = self.bytes.len() - WORD;
        if !is_word_at(self.bytes, text, 0) {
            return false;
        }
        if !is_word_at(self.bytes, text, last / 2) {
            return false;
        }
        is_word_at(self.bytes, text, last)
    }
}

// Whether two texts have the same four bytes from a place on.
#[inline(always)]
fn is_word_at(head: &[u8], text: &[u8], at: usize) -> bool
    requires head { at + 4 ≤ length head.now }
    requires text { at + 4 ≤ length text.now }
    ensures { result ≡ true → take at head.now ≡ take at text.now → take (at + 4) head.now ≡ take (at + 4) text.now }
{
    word_at(head, at) == word_at(text, at)
}

#[inline(always)]
fn word_at(text: &[u8], at: usize) -> u32
    requires { at + 4 ≤ length text.now }
    ensures { result ≡ from_le_bytes w32 (slice_index text.now at ∷ slice_index text.now (at + 1) ∷ slice_index text.now (at + 2) ∷ slice_index text.now (at + 3) ∷ []) }
{
    u32::from_le_bytes([text[at], text[at + 1], text[at + 2], text[at + 3]])
}

/// The ask that a text begins with, its head, and what stands behind its line; None where the first line is no ask of four plain
/// numbers whose end stands in the text.
pub fn plain_ask<'a>(text: &'a [u8]) -> Option<(PlainAsk, AskHead<'a>, &'a [u8])>
    ensures { IfSome result (λ r. IsAskBefore text.now r.0 r.2.now) }
{
    let (head, rest) = AskHead::read(text)?;
    let (src, rest) = number_before(rest, b',')?;
    let (dst, rest) = number_before(rest, b',')?;
    let (slots, rest) = last_number_before(rest)?;
    let ask = PlainAsk {
        round: head.round,
        src,
        dst,
        slots,
    };
    Some((ask, head, rest))
}

// The short number that stands at a place and a comma ends, and the place behind the comma.
#[inline(always)]
fn short_number_before(text: &[u8], at: usize) -> Option<(u32, usize)>
    requires { at + 4 ≤ length text.now }
    ensures number { IfSome result (λ r. IsNumberBefore (drop at text.now) 44 r.0 (drop r.1 text.now)) }
    ensures near { IfSome result (λ r. r.1 ≤ at + 4) }
{
    let (number, end) = short_number(text, at)?;
    if text[end] != b',' {
        return None;
    }
    Some((number, end + 1))
}

// The number that stands at a place and the end of a line ends, and what stands behind that.
#[inline(always)]
fn last_number_at(text: &[u8], at: usize) -> Option<(u32, &[u8])>
    requires { at + 5 ≤ length text.now }
    ensures { IfSome result (λ r. IsLastNumberBefore (drop at text.now) r.0 r.1.now) }
{
    match short_last_number_at(text, at) {
        Some(found) => Some(found),
        None => long_last_number_at(text, at),
    }
}

// The same of a number that may be longer.
#[inline(always)]
fn long_last_number_at(text: &[u8], at: usize) -> Option<(u32, &[u8])>
    requires { at ≤ length text.now }
    ensures { IfSome result (λ r. IsLastNumberBefore (drop at text.now) r.0 r.1.now) }
{
    last_number_before(&text[at..])
}

// The same of a number below 100.
#[inline(always)]
fn short_last_number_at(text: &[u8], at: usize) -> Option<(u32, &[u8])>
    requires { at + 5 ≤ length text.now }
    ensures { IfSome result (λ r. IsLastNumberBefore (drop at text.now) r.0 r.1.now) }
{
    let (number, end) = number_below_100(text, at)?;
    let rest = &text[end + 1..];
    match text[end] {
        b'\n' => Some((number, rest)),
        b'\r' => Some((number, behind_blank_line(rest))),
        _ => None,
    }
}

// The number that a text begins with and the end of a line ends, and what stands behind that.
#[inline(never)]
fn last_number_before(text: &[u8]) -> Option<(u32, &[u8])>
    ensures { IfSome result (λ r. IsLastNumberBefore text.now r.0 r.1.now) }
{
    if let Some(found) = number_before(text, b'\n') {
        return Some(found);
    }
    let (number, rest) = number_before(text, b'\r')?;
    Some((number, behind_blank_line(rest)))
}

/// The ask that a text begins with, each field of which stands between quotes, and what stands behind its line; None where the first
/// line is no ask of four such numbers whose end stands in the text.
pub fn quoted_ask(text: &[u8]) -> Option<(PlainAsk, &[u8])>
    ensures { IfSome result (λ r. IsAskBefore text.now r.0 r.1.now) }
{
    let rest = text.strip_prefix(b"\"ask\",\"".as_slice())?;
    let (round, rest) = quoted_number(rest)?;
    let (src, rest) = quoted_number(rest)?;
    let (dst, rest) = quoted_number(rest)?;
    let (slots, rest) = number_before(rest, b'"')?;
    let rest = behind_end(rest)?;
    let ask = PlainAsk {
        round,
        src,
        dst,
        slots,
    };
    Some((ask, rest))
}

// The number that a text begins with, which a quote closes, and what stands behind the quote that opens the next.
fn quoted_number(text: &[u8]) -> Option<(u32, &[u8])>
    ensures { IfSome result (λ r. IsNumberBefore text.now 34 r.0 (44 ∷ 34 ∷ r.1.now)) }
{
    let (number, behind) = number_before(text, b'"')?;
    let rest = behind.strip_prefix(b",\"".as_slice())?;
    Some((number, rest))
}

// What stands behind the end of a line that a text begins with.
fn behind_end(text: &[u8]) -> Option<&[u8]>
    ensures { IfSome result (λ rest. IsEndBefore text.now rest.now) }
{
    match text {
        [b'\n' | b'\r', rest @ ..] => Some(behind_blank_line(rest)),
        _ => None,
    }
}
