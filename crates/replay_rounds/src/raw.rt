//! The raw packets of a round, read once for all endpoints.
ghost use Rattle.std.specs.Prelude.{◌≡◌, ◌<◌, ◌≤◌, ◌++◌, [], take, slice_set, Some, IfOk, OnOk};
ghost use Rattle.std.specs.List.Sorted.{IsNonDecreasingBy};
ghost use Rattle.replay_rounds.specs.Collecting.{framed_answer, framed_in, named_at, named_in, raw_part, source_of, with_numbers};

use crate::NoMemory;
use crate::named::Named;
use fcp_framing::{Up, decode_up};
use std::alloc::Global;
use std::marker::Model;
use trace_text::Trace;

/// The raw packets of a round.
#[derive(Drop)]
pub(crate) struct RawRound {
    // Those that spell a packet, by the endpoint that they name.
    named: Vec<Named>,
    // The number of the refusal of each, if one refuses it so far.
    answers: Vec<Option<u8>>,
}

impl Model for RawRound {
    ghost use Rattle.std.specs.List.Sorted.{IsNonDecreasingBy};
    ghost use Rattle.replay_rounds.specs.Collecting.{RawPart};

    ghost Value = { RawPart };

    ghost view = { λ r. record { named = r.named.items; answers = r.answers.items } };

    ghost invariant = { λ r. IsNonDecreasingBy (λ one. one.source) r.named.items };
}

impl RawRound {
    /// Reads the raw packets of a round. What is no packet is answered at once.
    pub(crate) fn read(alloc: Global, trace: &Trace, round: u32) -> Result<RawRound, NoMemory>
        requires { round < trace.now.rounds }
        ensures { IfOk result (λ raw. raw ≡ raw_part trace.now round) }
    {
        let mut named = Vec::new(alloc);
        let mut answers = Vec::new(alloc);
        if trace.raw_count(round) > 0 {
            read_raw(trace, round, &mut named, &mut answers)?;
        }
        Ok(RawRound { named, answers })
    }

    /// Those that spell a packet.
    pub(crate) fn named(&self) -> &[Named]
        ensures named { result.now ≡ self.now.named }
        ensures sorted { IsNonDecreasingBy (λ one. one.source) result.now }
    {
        &self.named
    }

    /// What they are answered where those at these places are refused, each with the number of its refusal.
    pub(crate) fn answers(&self, refused: &[(u32, u8)]) -> Result<Vec<Option<u8>>, NoMemory>
        ensures { IfOk result (λ answers. answers.items ≡ with_numbers refused.now self.now.answers) }
    {
        let mut answers = self.answers.clone()?;
        for one in refused {
            note_number(&mut answers, one.0 as usize, one.1);
        }
        Ok(answers)
    }
}

/// Reads each raw packet of a round: the endpoint that it names, or the number of its refusal.
fn read_raw(
    trace: &Trace,
    round: u32,
    named: &mut Vec<Named>,
    answers: &mut Vec<Option<u8>>,
) -> Result<(), NoMemory>
    requires round { round < trace.now.rounds }
    requires no_names { named.old.items ≡ [] }
    requires no_answers { answers.old.items ≡ [] }
    ensures named { OnOk result (named.new.items ≡ named_in trace.now round) }
    ensures sorted { OnOk result (IsNonDecreasingBy (λ one. one.source) named.new.items) }
    ensures answers { OnOk result (answers.new.items ≡ framed_in trace.now round) }
{
    let endpoints = trace.endpoints();
    let count = trace.raw_count(round);
    let mut up = Up::default();
    answers.reserve(count)?;
    for at in 0..count {
        let (source, answer) = read_one(trace.raw(round, at), endpoints, &mut up);
        push_named(named, source, at as u32)?;
        answers.push(answer)?;
    }
    named.sort_by_key(|one| one.source)?;
    Ok(())
}

/// Appends a raw packet that names an endpoint.
fn push_named(named: &mut Vec<Named>, source: Option<u16>, place: u32) -> Result<(), NoMemory>
    ensures { OnOk result (named.new.items ≡ named.old.items ++ named_at place source) }
{
    if let Some(source) = source {
        named.push(Named { source, place })?;
    }
    Ok(())
}

/// The endpoint that the bytes name, or the number of the refusal where they spell no packet.
fn read_one(bytes: &[u8], endpoints: u16, up: &mut Up) -> (Option<u16>, Option<u8>)
    requires { endpoints ≤ 256 }
    ensures source { result.0 ≡ source_of endpoints bytes.now }
    ensures answer { result.1 ≡ framed_answer endpoints bytes.now }
{
    match decode_up(bytes, endpoints, up) {
        Ok(()) => (Some(up.src), None),
        Err(refusal) => (None, Some(refusal.number())),
    }
}

/// Writes a number at a place, if there is such a place.
fn note_number(answers: &mut Vec<Option<u8>>, place: usize, number: u8)
    ensures { answers.new.items ≡ slice_set answers.old.items place (Some number) }
{
    if place < answers.len() {
        answers[place] = Some(number);
    }
}
