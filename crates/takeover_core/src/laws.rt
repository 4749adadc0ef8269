ghost use Rattle.takeover_core.specs.Promised.{EveryListIsPromised};

use takeover_history::{
    each_generation_is_scheduled, no_batch_is_published_twice, sends_are_asked, slots_are_matchings,
};

/// What is promised of every list of events: no batch twice, slots that are matchings, sends that were asked for, and generations that
/// are scheduled.
pub fn what_is_promised()
    ensures { EveryListIsPromised }
{
    no_batch_is_published_twice();
    slots_are_matchings();
    sends_are_asked();
    each_generation_is_scheduled();
}
