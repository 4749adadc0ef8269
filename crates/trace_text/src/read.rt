// The rest of a text, read as rows to its end.
ghost use Rattle.std.specs.Prelude.{◌+◌, ◌≤◌, List, OnOk, length};
ghost use Rattle.trace_text.specs.Lines.{records_in};
ghost use Rattle.trace_text.specs.Rows.{Row};
ghost use Rattle.trace_text.specs.Standing.{Finishes, ReadsRecords, ReadsRest, RowsAreKept, StandsFor};

use crate::records::{Found, Records};
use crate::rows::Rows;
use crate::whole_lines::take_whole_lines;
use crate::{Command, Fault, Trace, TraceRefused};
use csv::ByteRecord;
use std::alloc::Global;

/// The trace that the rows so far and those of the rest of a text are, or its first faulty row and that row's fault.
pub fn read_rest(
    alloc: Global,
    mut rows: Rows,
    command: Command,
    text: &[u8],
) -> Result<Trace, TraceRefused>
    requires stands { RowsAreKept rows }
    requires room { rows.count + length (records_in text.now) ≤ 67108864 }
    ensures { (before : List Row) → StandsFor before rows → ReadsRest command before (records_in text.now) result }
{
    let mut records = Records::of(alloc, text);
    let mut fields = ByteRecord::new(alloc);
    loop {
        take_lines(&mut rows, command, &mut records, &mut fields)?;
        match records.read(&mut fields)? {
            Found::Fields => rows.take(command, &fields)?,
            Found::TooMany => return Err(rows.refuse_too_many(command, &fields)),
            Found::End => return finish(rows),
        }
    }
}

// Takes the whole lines that follow, where no front is being read.
fn take_lines(
    rows: &mut Rows,
    command: Command,
    records: &mut Records,
    fields: &mut ByteRecord,
) -> Result<(), TraceRefused>
    requires stands { RowsAreKept rows.old }
    requires room { rows.old.count + length records.old ≤ 67108864 }
    ensures rows { (before : List Row) → StandsFor before rows.old → ReadsRecords command before records.old rows.new records.new result }
    ensures fewer { OnOk result (length records.new ≤ length records.old) }
{
    if let Some(text) = records.text() {
        let rest = take_whole_lines(rows, command, text, fields)?;
        records.go_on(rest);
    }
    Ok(())
}

// What stands after the last row.
fn finish(rows: Rows) -> Result<Trace, TraceRefused>
    requires stands { RowsAreKept rows }
    requires room { rows.count ≤ 67108864 }
    ensures { Finishes rows result }
{
    let Some(net) = rows.net else {
        return Err(TraceRefused::Row {
            row: 1,
            fault: Fault::NoNet,
        });
    };
    let Some(rounds) = rows.end else {
        return Err(TraceRefused::Row {
            row: rows.count + 1,
            fault: Fault::NoEnd,
        });
    };
    let asks = rows.sums.finish(rows.asks)?;
    Ok(Trace::of(rows.alloc, net, rounds, asks, rows.events, rows.puts)?)
}
