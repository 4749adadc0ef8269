// The lines of batches and of slots.
ghost use Rattle.std.specs.Prelude.{◌≡◌, ◌<◌, ◌≤◌, ◌+◌, ◌^◌, length, map, take, drop};
ghost use Rattle.greedy_rules.specs.Schedule.{slot_in};
ghost use Rattle.path_workers.specs.CoreTable.{core_of};
ghost use Rattle.window_engine.specs.Scheduled.{cores_from};
ghost use Rattle.text_output.specs.Output.{Passes};
ghost use Rattle.run_lines.specs.Steps.{IsStepWindow, batch_of_step};
ghost use Rattle.run_lines.specs.Text.{text_of, slot_line, slots_lines};

use fp_edge::Sink;
use greedy_rules::SlotTable;
use path_workers::CoreTable;
use report_text::Numeral;
use text_output::{Output, Stop, put_entries, put_row};
use window_engine::Step;

/// The packets of the slot of this number, by source.
fn put_slot<K: Sink>(
    output: &mut Output<'_, K>,
    table: &SlotTable,
    cores: &CoreTable,
    place: u16,
    number: u32,
) -> Result<(), Stop>
    requires place { place < length table.now.slots }
    requires core_place { place < cores.now.slots }
    ensures { Passes output.old output.new
        (text_of (map (slot_line number (core_of cores.now place)) (slot_in table.now.slots place))) result }
{
    if !table.has_row(place) {
        return Ok(());
    }
    let _endpoints = table.endpoints();
    put_row(
        output,
        &Numeral::new(number),
        table.row(place),
        table.senders(place),
        cores.row(place),
    )
}

/// The packets of so many slots of the tables from this place on; the slot at place 0 has the number `base`.
pub fn put_slots<K: Sink>(
    output: &mut Output<'_, K>,
    table: &SlotTable,
    cores: &CoreTable,
    from: u16,
    count: u16,
    base: u32,
) -> Result<(), Stop>
    requires count { from + count ≤ length table.now.slots }
    requires places { from + count < 2 ^ 16 }
    requires numbers { base + (from + count) ≤ 2 ^ 32 }
    requires core_slots { from + count ≤ cores.now.slots }
    requires core_endpoints { table.now.endpoints ≤ cores.now.endpoints }
    ensures { Passes output.old output.new
        (text_of (slots_lines (cores_from base cores.now) (base + from) (take count (drop from table.now.slots)))) result }
{
    for place in from..from + count {
        put_slot(output, table, cores, place, base + u32::from(place))?;
    }
    Ok(())
}

/// One batch of a step of a plan, counted from 0, with its slots.
pub fn put_batch<K: Sink>(
    output: &mut Output<'_, K>,
    step: &Step,
    b: u8,
    at: u32,
) -> Result<(), Stop>
    requires b { (0 < b) × (b ≤ 64) }
    requires window { IsStepWindow b step.now }
    requires at { at < step.now.window.span.count }
    ensures { Passes output.old output.new (text_of (batch_of_step b step.now at)) result }
{
    let span = step.allocated();
    let number = span.first + at;
    put_entries(output, number, &step.batches()[at as usize])?;
    let count = u16::from(b);
    let from = at as u16 * count;
    let base = span.first * u32::from(b) + 1;
    put_slots(output, step.slots(), step.cores(), from, count, base)
}
