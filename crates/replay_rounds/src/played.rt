//! What rounds give that were played.
ghost use Rattle.std.specs.Prelude.{◌≡◌, ◌<◌, length, slice_get, Some};

use greedy_rules::Batch;
use std::marker::Model;

/// A packet that an endpoint sends in a slot.
#[derive(Clone, Copy, Debug, PartialEq, Eq)]
pub struct Departure {
    pub slot: u32,
    pub src: u16,
    pub dst: u16,
}

/// What some rounds give, each in its place: the batch that it records, the number of the refusal of each raw packet, in the order
/// of rows and None where the packet is accepted, and what is sent in it, by slot and then source.
#[derive(Drop)]
pub struct Played {
    pub(crate) batches: Vec<Batch>,
    pub(crate) answers: Vec<Vec<Option<u8>>>,
    pub(crate) departures: Vec<Vec<Departure>>,
}

impl Model for Played {
    ghost use Rattle.std.specs.Prelude.{map, Vec};
    ghost use Rattle.replay_rounds.specs.Played.{Played as PlayedRounds};

    ghost Value = { PlayedRounds };

    ghost view = { λ p. record {
      batches = p.batches.items;
      answers = map (λ v. v.items) p.answers.items;
      departures = map (λ v. v.items) p.departures.items;
    } };
}

impl Played {
    /// The batches that the rounds record.
    pub fn batches(&self) -> &[Batch]
        ensures { result.now ≡ self.now.batches }
    {
        &self.batches
    }

    /// What the raw packets of a round are answered, by its place among these rounds.
    pub fn answers(&self, at: usize) -> &[Option<u8>]
        requires { at < length self.now.answers }
        ensures { slice_get self.now.answers at ≡ Some result.now }
    {
        &self.answers[at]
    }

    /// What is sent in a round, by its place among these rounds.
    pub fn departures(&self, at: usize) -> &[Departure]
        requires { at < length self.now.departures }
        ensures { slice_get self.now.departures at ≡ Some result.now }
    {
        &self.departures[at]
    }
}
