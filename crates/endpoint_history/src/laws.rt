//! What holds of both ends of a connection at every moment. Crates above cite these functions' contracts.
ghost use Rattle.endpoint_history.specs.AgentLaws.{TakingBringsSlots, SendsAreAsked, SentWasTaken, ConfirmedByGreatest, CarriedIsWhatIsShown, RequestsNameTotals};
ghost use Rattle.endpoint_history.specs.Bounds.{NumbersAreFew, ToldIsFew, NoneIsToldBeyond, TakenIsFew, RecordedIsNamed};
ghost use Rattle.endpoint_history.specs.CountLaws.{MakingTells, ReadingDecides, ResetsCountAnew, CountsAddUp, WhatIsToldWasHandedOver};
ghost use Rattle.endpoint_history.specs.Examples.{WorkedRounds};
ghost use Rattle.endpoint_history.specs.ForgedLaws.{EachTellingWasIssued, ComesAfterTwoWindows, OneNumberForABatch, SentOnce};
ghost use Rattle.endpoint_history.specs.LedgerLaws.{LedgerIsWithin, AddsSumToOwed, EntriesSumToOwed, CountsBeginAtTheLastClear, OneRest};
ghost use Rattle.endpoint_history.specs.NumberLaws.{EndsAgree, OneContentANumber, AcknowledgedIsTakenOnce, AcknowledgedSlotsAreTakenOnce, LostNumbersAreNeverTaken, LostIsNeverSent};
ghost use Rattle.endpoint_history.specs.Packets.{AreFramedAlike};
ghost use Rattle.endpoint_history.specs.Reading.{SpelledAlike, RoundsAreReadInOrder};
ghost use Rattle.endpoint_history.specs.RoundLaws.{RoundsArriveFromOther, RoundsAreInOrder, RoundsGoOn};
ghost use Rattle.endpoint_history.specs.SlotLaws.{SlotsAgree, TotalsAgree, InTimeIsAsked, SendsAndWaitingAreAsked, NoneIsPassedOver};
ghost use Rattle.endpoint_history.specs.Unharmed.{NoLossOrBootHarms};
ghost use Rattle.endpoint_history.specs.Windows.{Windows};

use crate::contents::{Slots, Totals};
use ack_window::{
    both_ends_of_a_direction_agree, each_number_is_taken_once, each_number_keeps_its_content,
    readings_move_what_they_decide,
};
use loss_world::arrivals_are_given_in_order;

/// Whatever is lost, held back or repeated, and however often the endpoint boots: what an end holds for acknowledged was taken
/// in once, and what it holds for lost is never taken or sent, before or after. No packet is forged.
pub fn both_ends_agree()
    ensures numbers { EndsAgree }
    ensures contents { OneContentANumber }
    ensures acknowledged { AcknowledgedIsTakenOnce }
    ensures taken_once { AcknowledgedSlotsAreTakenOnce }
    ensures never_taken { LostNumbersAreNeverTaken }
    ensures never_sent { LostIsNeverSent }
{
    windows_hold();
}

/// The slots and totals of both ends agree, where no packet is forged.
pub fn slots_agree()
    ensures slots { SlotsAgree }
    ensures totals { TotalsAgree }
{
    windows_hold();
}

/// Where no packet is forged and no more is told than is owed, every slot in time was asked for and is sent in.
pub fn slots_in_time_are_sent()
    ensures in_time { InTimeIsAsked }
    ensures sends { SendsAndWaitingAreAsked }
    ensures none_passed { NoneIsPassedOver }
{
    windows_hold();
}

/// What no loss, delay, repeat or boot does to an endpoint that no raw packet names: what is lost is never sent, what is acknowledged
/// was taken in once, and where no more is told than is owed no slot in time is passed over.
pub fn no_loss_or_boot_harms()
    ensures { NoLossOrBootHarms }
{
    both_ends_agree();
    slots_in_time_are_sent();
    rounds_are_calls();
}

/// What an agent may rely on of the allocations that it takes, also where upward packets are forged.
pub fn allocations_are_in_order()
    ensures issued { EachTellingWasIssued }
    ensures late { ComesAfterTwoWindows }
    ensures one { OneNumberForABatch }
    ensures sent_once { SentOnce }
{
    windows_hold();
}

/// An agent alone, whatever arrives: its slots and its sends.
pub fn agents_count_slots()
    ensures taking { TakingBringsSlots }
    ensures asked { SendsAreAsked }
    ensures taken { SentWasTaken }
{}

/// An agent alone, whatever arrives: what its requests name, and when a total is confirmed.
pub fn requests_name_unconfirmed_totals()
    ensures named { RequestsNameTotals }
    ensures confirmed { ConfirmedByGreatest }
    ensures carried { CarriedIsWhatIsShown }
{}

/// A lane alone, whatever arrives: what each call changes of its counts.
pub fn lanes_count_slots()
    ensures making { MakingTells }
    ensures reading { ReadingDecides }
    ensures resets { ResetsCountAnew }
    ensures sums { CountsAddUp }
{
    windows_hold();
}

/// A lane alone, whatever arrives: what it tells are slots that were handed to it in an earlier round or in this one.
pub fn lanes_tell_what_they_are_handed()
    ensures { WhatIsToldWasHandedOver }
{}

/// A lane alone, whatever arrives: what the batches add since the last reset is what is recorded and lost. Where its caller
/// publishes slots before they are told, and no more than are owed, no more is told than is allocated.
pub fn the_ledger_holds()
    ensures within { LedgerIsWithin }
    ensures adds { AddsSumToOwed }
    ensures entries { EntriesSumToOwed }
{
    windows_hold();
}

/// The ledger of a lane and the rest of the demand list agree, whatever arrives and whatever is not yet allocated.
pub fn ledger_and_demand_list_agree()
    ensures rest { OneRest }
    ensures begins { CountsBeginAtTheLastClear }
{
    windows_hold();
}

/// How large numbers, losses and totals become.
pub fn counts_are_bounded()
    ensures numbers { NumbersAreFew }
    ensures told { ToldIsFew }
    ensures beyond { NoneIsToldBeyond }
    ensures taken { TakenIsFew }
    ensures recorded { RecordedIsNamed }
{
    windows_hold();
}

/// An endpoint's rounds are calls of both ends, in order.
pub fn rounds_are_calls()
    ensures arrive { RoundsArriveFromOther }
    ensures order { RoundsAreInOrder }
    ensures go_on { RoundsGoOn }
{}

/// What a round reads from a world are the bytes of the packets that arrive in it, one after the other.
pub fn rounds_are_read_in_order()
    ensures alike { SpelledAlike }
    ensures next { RoundsAreReadInOrder }
{
    arrivals_are_given_in_order();
}

/// A packet on the wire is the packet that a history speaks of, and the other way round.
pub fn packets_are_framed_alike()
    ensures { AreFramedAlike }
{}

/// Small rounds, which the definitions compute: a slot told and sent, its allocation lost, late, repeated or old, no new number
/// left for seventy rounds, a boot with slots on the way, and the second version.
pub fn small_rounds()
    ensures { WorkedRounds }
{}

/// The laws of both windows of a connection, for what a request and an allocation hold.
fn windows_hold()
    ensures { Windows }
{
    both_ends_of_a_direction_agree::<Totals>();
    both_ends_of_a_direction_agree::<Slots>();
    each_number_is_taken_once();
    each_number_keeps_its_content::<Totals>();
    each_number_keeps_its_content::<Slots>();
    readings_move_what_they_decide::<Slots>();
}
