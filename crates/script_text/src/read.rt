ghost use Rattle.std.specs.Prelude.{◌≡◌, Ok, IfOk, IfErr};
ghost use Rattle.script_text.specs.Script.{script_of, IsScriptFaultOf, IsScript};
ghost use Rattle.script_text.specs.Standing.{RowsStand, ScriptFinishes};

use crate::Script;
use crate::rows::Rows;
use csv::ByteRecord;
use std::alloc::Global;
use takeover_history::asks_are_counted;
use trace_text::{CsvRecords, Fault, TraceRefused, without_mark};

/// The script that a text is, or its first faulty row and that row's fault. The rows and the faults in their order are this project's
/// own profile.
pub fn read_script(alloc: Global, bytes: &[u8]) -> Result<Script, TraceRefused>
    ensures accepted { IfOk result (λ script. script_of bytes.now ≡ Ok script) }
    ensures happens { IfOk result IsScript }
    ensures refused { IfErr result (IsScriptFaultOf (script_of bytes.now)) }
{
    asks_are_counted();
    let mut records = CsvRecords::open(alloc, without_mark(bytes))?;
    let mut fields = ByteRecord::new(alloc);
    let mut rows = Rows::open(alloc)?;
    while records.read(&mut fields)? {
        rows.take(&fields)?;
    }
    finish(rows)
}

/// What stands after the last row.
fn finish(rows: Rows) -> Result<Script, TraceRefused>
    requires { RowsStand rows }
    ensures { ScriptFinishes rows result }
{
    if rows.count == 0 {
        return Err(TraceRefused::Row {
            row: 1,
            fault: Fault::NoNet,
        });
    }
    if !rows.ended {
        return Err(TraceRefused::Row {
            row: rows.count + 1,
            fault: Fault::NoEnd,
        });
    }
    Ok(Script {
        endpoints: rows.endpoints,
        b: rows.b,
        lease: rows.span,
        events: rows.events,
    })
}
