ghost use Rattle.std.specs.Prelude.{◌≡◌};

use std::marker::Model;
use takeover_core::Event;

/// A script without faulty row: a pair, and what comes to it.
#[derive(Drop)]
pub struct Script {
    pub(crate) endpoints: u16,
    pub(crate) b: u8,
    pub(crate) lease: u16,
    pub(crate) events: Vec<Event>,
}

impl Model for Script {
    ghost use Rattle.script_text.specs.Content.{ScriptContent};

    ghost Value = { ScriptContent };

    ghost view = { λ script. record { pair = record { endpoints = script.endpoints; b = script.b; span = script.lease }; events = script.events.items } };
}

impl Script {
    /// How many endpoints there are, slots in a batch and batches in a lease.
    pub fn pair(&self) -> (u16, u8, u16)
        ensures endpoints { result.0 ≡ self.now.pair.endpoints }
        ensures b { result.1 ≡ self.now.pair.b }
        ensures lease { result.2 ≡ self.now.pair.span }
    {
        (self.endpoints, self.b, self.lease)
    }

    /// The event rows, in order.
    pub fn events(&self) -> &[Event]
        ensures { result.now ≡ self.now.events }
    {
        &self.events
    }
}
