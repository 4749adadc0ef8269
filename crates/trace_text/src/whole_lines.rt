// The whole lines at the front of a text, taken as rows: asks where they stand, most by the head that they share with the ask before,
// and other lines whose fields are plain or stand between quotes.
ghost use Rattle.std.specs.Prelude.{◌+◌, ◌<◌, ◌≤◌, List, length, IfOk, IfSome};
ghost use Rattle.trace_text.specs.Lines.{records_in};
ghost use Rattle.trace_text.specs.Rows.{Row};
ghost use Rattle.trace_text.specs.Standing.{ReadsFirst, ReadsLines, RowsAreKept, StandsFor};

use crate::line::{behind_blank_lines, read_whole_line};
use crate::plain_ask::{plain_ask, quoted_ask};
use crate::rows::Rows;
use crate::{Command, TraceRefused};
use csv::ByteRecord;

/// Takes the lines that stand whole at the front of a text, and answers what is left: none, a line without its end, or one with
/// another quote than those round a field, and what stands behind it.
pub fn take_whole_lines<'a>(
    rows: &mut Rows,
    command: Command,
    text: &'a [u8],
    fields: &mut ByteRecord,
) -> Result<&'a [u8], TraceRefused>
    requires stands { RowsAreKept rows.old }
    requires room { rows.old.count + length (records_in text.now) ≤ 67108864 }
    ensures rows { (before : List Row) → StandsFor before rows.old → ReadsLines command before text.now rows.new result }
    ensures fewer { IfOk result (λ rest. length (records_in rest.now) ≤ length (records_in text.now)) }
{
    let mut rest = text;
    while let Some(more) = take_first(rows, command, rest, fields)? {
        rest = more;
    }
    Ok(rest)
}

// Takes the first line of a text, and where it is an ask those that follow with the same head; answers what is left. None where the
// line is not whole or has another quote.
fn take_first<'a>(
    rows: &mut Rows,
    command: Command,
    text: &'a [u8],
    fields: &mut ByteRecord,
) -> Result<Option<&'a [u8]>, TraceRefused>
    requires stands { RowsAreKept rows.old }
    requires room { rows.old.count + length (records_in text.now) ≤ 67108864 }
    ensures rows { (before : List Row) → StandsFor before rows.old → ReadsFirst command before text.now rows.old rows.new result }
    ensures fewer { IfOk result (λ line. IfSome line (λ rest. length (records_in rest.now) < length (records_in text.now))) }
{
    let text = behind_blank_lines(text);
    if let Some((ask, head, rest)) = plain_ask(text) {
        rows.take_ask(command, &ask)?;
        return Ok(Some(rows.take_asks(command, &head, rest)));
    }
    if let Some((ask, rest)) = quoted_ask(text) {
        rows.take_ask(command, &ask)?;
        return Ok(Some(rest));
    }
    let Some(rest) = read_whole_line(text, fields)? else {
        return Ok(None);
    };
    rows.take(command, fields)?;
    Ok(Some(rest))
}
