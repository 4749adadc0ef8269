//! Whether a flow may have an entry in the batches of a window, by its marks.
ghost use Rattle.std.specs.Prelude.{◌≡◌, false};
ghost use Rattle.slot_batches.specs.Marks.{has_mark as has_mark_in};

use greedy_rules::Flow;
use slot_batches::FlowMarks;

/// Whether the flow may have an entry in the window.
pub(crate) fn has_mark(marks: &FlowMarks, flow: Flow) -> bool
    ensures { result ≡ false → has_mark_in marks.now flow ≡ false }
{
    marks.may_have(flow)
}
