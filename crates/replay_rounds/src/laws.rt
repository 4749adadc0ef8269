//! What the parts of a window rest on.
ghost use Rattle.replay_rounds.specs.Played.{EveryRefusalHasANumber};
ghost use Rattle.replay_rounds.specs.Rules.{EverySettingIsOfATrace};
ghost use Rattle.replay_rounds.specs.Parts.{EveryRoundMayBePlayed, WhatIsToldIsHeld};

use endpoint_history::packets_are_framed_alike;
use fcp_framing::what_is_read_was_spelled_so;
use trace_run::{
    agents_boot_and_are_asked, what_is_told_is_allocated, what_is_told_keeps_the_rules,
    windows_make_the_schedule,
};

/// What an endpoint is handed in a round of a trace keeps all that its rounds ask for, and a publisher that holds the batch of two
/// windows before tells it the slots of the run.
pub(crate) fn rounds_may_be_played()
    ensures rounds { EveryRoundMayBePlayed }
    ensures told { WhatIsToldIsHeld }
{
    agents_boot_and_are_asked();
    packets_are_framed_alike();
    what_is_read_was_spelled_so();
    what_is_told_is_allocated();
    what_is_told_keeps_the_rules();
    windows_make_the_schedule();
}

/// A law over every trace: each refusal of a raw packet has one of the numbers under which refusals are told.
pub fn every_refusal_has_a_number()
    ensures { EveryRefusalHasANumber }
{}

/// A law over every accepted trace: the laws of runs (`trace_run`) hold of its run, whatever the batch size, the window and the cores.
pub fn every_setting_is_of_a_trace()
    ensures { EverySettingIsOfATrace }
{
    packets_are_framed_alike();
    what_is_read_was_spelled_so();
}
