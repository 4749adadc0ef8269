//! What holds of both ends of a connection, over whole histories: crates above cite these functions' contracts.
ghost use Rattle.ack_window.specs.Examples.{WindowsOfTheFirstVersion, WindowsOfTheSecondVersion};
ghost use Rattle.ack_window.specs.Laws.{EachVerdictHasItsCause, EachIsTakenOnce, WhatIsTakenHasCome, TakingIsForGood, ShownWasTaken, LostIsNeverTaken, UndecidedIsStillTaken, OpenIsWithinSpan, EachNumberKeepsItsContent, TheNewestGoesAgain, AgreementIsKept, TheEndsAgree, LostStaysUntaken, PacketsStayTheirSenders};
ghost use Rattle.ack_window.specs.Steps.{SendersGoOnByStep};
ghost use Rattle.ack_window.specs.Versions.{EachVersionHasItsLimits};
ghost use Rattle.ack_window.specs.Weights.{EachNumberIsOneOfThree, AReadingMovesWhatItDecides, WeightsAddUp};

/// How late a number may come and how far numbers run ahead, in each version.
pub fn each_version_has_its_limits()
    ensures { EachVersionHasItsLimits }
{}

/// Each number that arrives is judged by what arrived before it, and is taken at most once and for good.
pub fn each_number_is_taken_once()
    ensures verdicts { EachVerdictHasItsCause }
    ensures once { EachIsTakenOnce }
    ensures come { WhatIsTakenHasCome }
    ensures for_good { TakingIsForGood }
{}

/// Taking stops exactly where finding lost starts.
pub fn taking_stops_where_loss_starts()
    ensures shown { ShownWasTaken }
    ensures lost { LostIsNeverTaken }
    ensures undecided { UndecidedIsStillTaken }
{}

/// The mask of every acknowledgement that is not passed over reaches every open number.
pub fn open_numbers_stay_within_span<T>()
    ensures { OpenIsWithinSpan T }
{}

/// A number's content never changes, and where no new number may be sent the newest has one.
pub fn each_number_keeps_its_content<T>()
    ensures contents { EachNumberKeepsItsContent T }
    ensures newest { TheNewestGoesAgain T }
{}

/// Whatever is lost, delayed, repeated or overtaken: what a sender holds for acknowledged was taken, and what it holds for lost
/// is never taken.
pub fn both_ends_of_a_direction_agree<T>()
    ensures always { TheEndsAgree T }
    ensures agreement { AgreementIsKept T }
    ensures lost { LostStaysUntaken T }
    ensures packets { PacketsStayTheirSenders T }
{}

/// Every number sent is open, acknowledged or lost, and a reading moves exactly what it decides, by any weight of contents.
pub fn readings_move_what_they_decide<T>()
    ensures parts { EachNumberIsOneOfThree T }
    ensures moved { AReadingMovesWhatItDecides T }
    ensures sums { WeightsAddUp T }
{}

/// A sender goes on by steps in which contents are only carried along: what a send and a reading make of it, and what they decide.
pub fn senders_go_on_by_step<T>()
    ensures { SendersGoOnByStep T }
{}

/// Small connections of both versions, which the definitions compute.
pub fn small_connections()
    ensures first { WindowsOfTheFirstVersion }
    ensures second { WindowsOfTheSecondVersion }
{}
