//! What holds of every history of a world.
ghost use Rattle.loss_world.specs.Arrivals.{NoneArrivesEarly};
ghost use Rattle.loss_world.specs.AtOnce.{PacketsPassAtOnce};
ghost use Rattle.loss_world.specs.Examples.{FivePacketsArrive, ThreeRoundsAreGiven};
ghost use Rattle.loss_world.specs.History.{GivenInOrder, AllAreGiven, EachAskTakesOne};

/// Whatever was sent and asked for, the packets that the asks for a round were given are the first of its arrivals, and those
/// left are the others. The ask that is given none comes after all of them.
pub fn arrivals_are_given_in_order()
    ensures in_order { GivenInOrder }
    ensures all { AllAreGiven }
    ensures one_by_one { EachAskTakesOne }
{}

/// Whatever its fate, a packet arrives in the round in which it was sent or in a later one.
pub fn no_packet_arrives_early()
    ensures { NoneArrivesEarly }
{}

/// A packet without a fate that is alone on its way is what arrives in its round, and once that is asked for nothing is left of
/// it: read at once, it need not be sent.
pub fn packets_pass_at_once()
    ensures { PacketsPassAtOnce }
{}

/// Small worlds, which the definitions compute.
pub fn small_worlds()
    ensures fates { FivePacketsArrive }
    ensures asks { ThreeRoundsAreGiven }
{}
