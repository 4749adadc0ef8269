// The lines of a batch that a node published.
ghost use Rattle.std.specs.Prelude.{◌<◌, ◌≤◌, ◌+◌, ◌*◌, ◌^◌, ◌∷◌, ◌++◌, length, map};
ghost use Rattle.greedy_rules.specs.Schedule.{slot_in, first_slot};
ghost use Rattle.text_output.specs.Output.{Passes};
ghost use Rattle.text_output.specs.Text.{text_of, entry_line, slot_line, slots_lines};
ghost use Rattle.takeover_text.specs.Lines.{no_cores};

use fp_edge::Sink;
use greedy_rules::{Batch, SlotTable};
use report_text::{Line, Numeral};
use text_output::{Output, Stop, put_entries, put_row};

/// The packets of the slot of this number, by source.
fn put_slot<K: Sink>(
    output: &mut Output<'_, K>,
    slots: &SlotTable,
    place: u16,
    number: u32,
) -> Result<(), Stop>
    requires { place < length slots.now.slots }
    ensures { Passes output.old output.new (text_of (map (slot_line number (no_cores number)) (slot_in slots.now.slots place))) result }
{
    if !slots.has_row(place) {
        return Ok(());
    }
    let _endpoints = slots.endpoints();
    put_row(
        output,
        &Numeral::new(number),
        slots.row(place),
        slots.senders(place),
        &[],
    )
}

/// The packets of the table's slots, of which the first has this number.
fn put_slots<K: Sink>(output: &mut Output<'_, K>, slots: &SlotTable, first: u32) -> Result<(), Stop>
    requires { first + length slots.now.slots ≤ 2 ^ 32 }
    ensures { Passes output.old output.new (text_of (slots_lines no_cores first slots.now.slots)) result }
{
    for place in 0..slots.slots() {
        put_slot(output, slots, place, first + u32::from(place))?;
    }
    Ok(())
}

/// A published batch: its node, its entries and its slots.
pub(crate) fn put_published<K: Sink>(
    output: &mut Output<'_, K>,
    node: u16,
    number: u32,
    batch: &Batch,
    slots: &SlotTable,
) -> Result<(), Stop>
    requires { first_slot (length slots.now.slots) number + length slots.now.slots ≤ 2 ^ 32 }
    ensures { Passes output.old output.new
        (text_of (Line.Published node number ∷ (map (entry_line number) batch.now.entries
        ++ slots_lines no_cores (first_slot (length slots.now.slots) number) slots.now.slots))) result }
{
    let first = number * u32::from(slots.slots()) + 1;
    output.put_line(&Line::Published {
        node,
        batch: number,
    })?;
    put_entries(output, number, batch)?;
    put_slots(output, slots, first)
}
