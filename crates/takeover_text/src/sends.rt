// The lines of the slots in which an endpoint sends.
ghost use Rattle.std.specs.Prelude.{◌<◌, ◌≤◌, ◌+◌, ◌^◌, List, length, map, take, drop};
ghost use Rattle.takeover_history.specs.declared.event.Event.{Event};
ghost use Rattle.takeover_history.specs.Events.{PairSetting};
ghost use Rattle.takeover_history.specs.Endpoints.{sent};
ghost use Rattle.takeover_history.specs.Steps.{log_of};
ghost use Rattle.takeover_core.specs.Standing.{PairStandsFor};
ghost use Rattle.text_output.specs.Output.{Passes};
ghost use Rattle.text_output.specs.Text.{text_of};
ghost use Rattle.takeover_text.specs.Lines.{send_line};

use fp_edge::Sink;
use report_text::Numeral;
use takeover_core::Pair;
use text_output::{Output, Stop};

/// So many of the pair's sends, from the one of this number on.
pub(crate) fn put_sends<K: Sink>(
    output: &mut Output<'_, K>,
    pair: &Pair,
    from: u32,
    count: u32,
) -> Result<(), Stop>
    requires numbers { from + count < 2 ^ 32 }
    requires sends { (setting : PairSetting) × (events : List Event) × PairStandsFor setting pair.now events × (from + count ≤ length (sent setting (log_of setting events))) }
    ensures { (setting : PairSetting) (events : List Event) → PairStandsFor setting pair.now events →
        Passes output.old output.new (text_of (map send_line (take count (drop from (sent setting (log_of setting events)))))) result }
{
    let mut slot = Numeral::new(0);
    for at in from..from + count {
        let (src, sent) = pair.sent(at);
        slot.set(sent.slot);
        output.put_sent(&slot, src, sent.dst)?;
    }
    Ok(())
}
