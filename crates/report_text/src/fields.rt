ghost use Rattle.std.specs.Prelude.{◌≡◌, ◌≢◌, ◌<◌, ◌≤◌, ◌^◌, ℕ, List, [], ◌∷◌, ◌++◌, length, codes, decimal, Some, IfSome, IsSomeAnd, slice_index, slice_index_or, true, Bool, MatchBool, ◌⊎◌, Option};
ghost use Rattle.report_text.specs.Lines.{fields, number_fields, core_field, bit, AreWithin, endpoint_most};
ghost use Rattle.report_text.specs.Names.{answer_name, IsRefusal};

use crate::names::number_named;
use std::str;

/// The most that the field of an endpoint, of a core, of any other number and of a sum holds.
pub(crate) const ENDPOINT: u64 = 65_535;

pub(crate) const NUMBER: u64 = 4_294_967_295;

pub(crate) const SUM: u64 = 18_446_744_073_709_551_615;

/// How many bytes stand before the first comma.
pub(crate) fn field_len(text: &[u8]) -> usize
    ensures within { result ≤ length text.now }
    ensures before { (i : ℕ) → i < result → slice_index text.now i ≢ 44 }
    ensures comma { result < length text.now → slice_index text.now result ≡ 44 }
{
    text.iter()
        .position(|byte| *byte == b',')
        .unwrap_or(text.len())
}

/// Whether a field has neither a sign nor a leading zero.
fn begins_plain(field: &[u8]) -> bool
    ensures { MatchBool result ((slice_index field.now 0 ≢ 43) × (slice_index field.now 0 ≡ 48 → length field.now ≡ 1)) ((slice_index field.now 0 ≡ 43) ⊎ ((slice_index field.now 0 ≡ 48) × (length field.now ≢ 1))) }
{
    !matches!(field, [b'+', ..] | [b'0', _, ..])
}

/// Reads a number in plain decimal.
fn number(field: &[u8]) -> Option<u64>
    ensures spelled { IfSome result (λ n. field.now ≡ decimal n) }
    ensures only { (n : ℕ) → n < 2 ^ 64 → field.now ≡ decimal n → IsSomeAnd result (λ m. m ≡ n) }
{
    if !begins_plain(field) {
        return None;
    }
    let Ok(text) = str::from_utf8(field) else {
        return None;
    };
    text.parse().ok()
}

/// Reads the number after a comma, which is at most `most`, and answers the bytes behind its field.
fn next_number(text: &[u8], most: u64) -> Option<(u64, &[u8])>
    ensures spelled { IfSome result (λ x. (text.now ≡ 44 ∷ decimal x.0 ++ x.1.now) × (x.0 ≤ most)) }
    ensures only { (n : ℕ) (rest : List ℕ) → n ≤ most → slice_index_or rest 0 44 ≡ 44 → text.now ≡ 44 ∷ decimal n ++ rest → IsSomeAnd result (λ x. (x.0 ≡ n) × (x.1.now ≡ rest)) }
{
    let text = text.strip_prefix(b",")?;
    let (field, rest) = text.split_at(field_len(text));
    let number = number(field)?;
    if number > most {
        return None;
    }
    Some((number, rest))
}

/// Reads a number for each of `values`, each after a comma and at most what stood there, and answers the bytes behind them.
pub(crate) fn read_numbers<'a>(text: &'a [u8], values: &mut [u64]) -> Option<&'a [u8]>
    ensures count { length values.new ≡ length values.old }
    ensures spelled { IfSome result (λ rest. (text.now ≡ number_fields values.new ++ rest.now) × AreWithin values.old values.new) }
    ensures only { (ns rest : List ℕ) → length ns ≡ length values.old → AreWithin values.old ns → slice_index_or rest 0 44 ≡ 44 → text.now ≡ number_fields ns ++ rest → IsSomeAnd result (λ r. (values.new ≡ ns) × (r.now ≡ rest)) }
{
    let mut rest = text;
    for value in values.iter_mut() {
        let (number, more) = next_number(rest, *value)?;
        *value = number;
        rest = more;
    }
    Some(rest)
}

/// Reads a number for each of `values`, each after a comma and at most what stood there, and nothing more.
pub(crate) fn read_all(text: &[u8], values: &mut [u64]) -> bool
    ensures count { length values.new ≡ length values.old }
    ensures spelled { result ≡ true → (text.now ≡ number_fields values.new) × AreWithin values.old values.new }
    ensures only { (ns : List ℕ) → length ns ≡ length values.old → AreWithin values.old ns → text.now ≡ number_fields ns → MatchBool result (values.new ≡ ns) ⊥ }
{
    match read_numbers(text, values) {
        Some(rest) => rest.is_empty(),
        None => false,
    }
}

/// Whether the field of a core says that there is none.
fn has_no_core(text: &[u8]) -> bool
    ensures { MatchBool result (text.now ≡ codes ",-") (text.now ≢ codes ",-") }
{
    matches!(text, b",-")
}

/// Reads the field of a core: a comma, and then a number of 16 bits, or a hyphen for none.
pub(crate) fn read_core(text: &[u8]) -> Option<Option<u16>>
    ensures spelled { IfSome result (λ core. text.now ≡ fields (core_field core ∷ [])) }
    ensures only { (core : Option ℕ) → IfSome core (λ c. c ≤ endpoint_most) → text.now ≡ fields (core_field core ∷ []) → IsSomeAnd result (λ c. c ≡ core) }
{
    if has_no_core(text) {
        return Some(None);
    }
    let (core, rest) = next_number(text, ENDPOINT)?;
    if !rest.is_empty() {
        return None;
    }
    Some(Some(core as u16))
}

/// Reads the field of a refusal's name: a comma, and then the name.
pub(crate) fn read_name(text: &[u8]) -> Option<u8>
    ensures spelled { IfSome result (λ number. IsRefusal number × (text.now ≡ fields (answer_name number ∷ []))) }
    ensures only { (number : ℕ) → IsRefusal number → text.now ≡ fields (answer_name number ∷ []) → IsSomeAnd result (λ n. n ≡ number) }
{
    number_named(text.strip_prefix(b",")?)
}

/// A flag, which is spelled 0 or 1.
pub(crate) fn flag(number: u64) -> bool
    requires { number ≤ 1 }
    ensures { bit result ≡ number }
{
    number == 1
}
