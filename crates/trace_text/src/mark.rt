// The byte order mark that a text may begin with.
ghost use Rattle.std.specs.Prelude.{◌≡◌};
ghost use Rattle.csv.specs.Reading.{strip_bom};
ghost use Rattle.trace_text.specs.Mark.{left_behind_mark};

/// The text behind the byte order mark that it may begin with.
pub fn without_mark(text: &[u8]) -> &[u8]
    ensures { result.now ≡ strip_bom text.now }
{
    match text.strip_prefix(b"\xef\xbb\xbf".as_slice()) {
        Some(rest) => rest,
        None => text,
    }
}

/// What is left of a text behind its mark, where this is the start of the text.
pub fn left_behind_mark(is_start: bool, left: &[u8]) -> &[u8]
    ensures { result.now ≡ left_behind_mark is_start left.now }
{
    if is_start { without_mark(left) } else { left }
}
