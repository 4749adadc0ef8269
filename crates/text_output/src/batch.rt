// The lines of what a batch records.
ghost use Rattle.std.specs.Prelude.{map};
ghost use Rattle.text_output.specs.Output.{Passes};
ghost use Rattle.text_output.specs.Text.{text_of, entry_line};

use crate::output::{Output, Stop};
use fp_edge::Sink;
use greedy_rules::Batch;
use report_text::Numeral;

/// A line for each entry of the batch of this number.
pub fn put_entries<K: Sink>(
    output: &mut Output<'_, K>,
    number: u32,
    batch: &Batch,
) -> Result<(), Stop>
    ensures { Passes output.old output.new (text_of (map (entry_line number) batch.now.entries)) result }
{
    if batch.is_empty() {
        return Ok(());
    }
    let spelled = Numeral::new(number);
    for at in 0..batch.len() {
        output.put_entry(&spelled, batch.entry(at))?;
    }
    Ok(())
}
