//! The contents of numbers, where a law on every content is called for one.
use std::marker::Model;

/// What goes with a number upward: totals by destination.
pub struct Totals;

impl Model for Totals {
    ghost use Rattle.std.specs.Prelude.{List, []};
    ghost use Rattle.fcp_framing.specs.declared.packet.Demand.{Demand};

    ghost Value = { List Demand };

    ghost view = { λ _. [] };
}

/// What goes with a number downward: slots of a batch.
pub struct Slots;

impl Model for Slots {
    ghost use Rattle.std.specs.Prelude.{[]};
    ghost use Rattle.endpoint_history.specs.Packets.{Telling};

    ghost Value = { Telling };

    ghost view = { λ _. record { batch = 0; told = [] } };
}
