ghost use Rattle.std.specs.Prelude.{◌≡◌, true, false};

use greedy_rules::{Entry, Flow};

mod alloc_pipeline_rows;
mod batch_lookup_rows;
mod endpoint_bitmaps_rows;
mod greedy_rules_rows;
mod ring_core_rows;
mod slot_batches_rows;

// An entry that opens a flow.
fn opening(src: u16, dst: u16, add: u32) -> Entry
    ensures { result ≡ record { flow = record { src = src; dst = dst }; opens = true; clear = false; add = add } }
{
    Entry {
        flow: Flow { src, dst },
        opens: true,
        clear: false,
        add,
    }
}
