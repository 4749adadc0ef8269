// The lines of rounds that were played.
ghost use Rattle.std.specs.Prelude.{◌<◌, map, length, All, IfSome};
ghost use Rattle.std.specs.List.{flat_map};
ghost use Rattle.report_text.specs.Names.{IsRefusal};
ghost use Rattle.text_output.specs.Output.{Passes};
ghost use Rattle.run_lines.specs.Steps.{StepIsPlayed, played_round};
ghost use Rattle.run_lines.specs.Text.{text_of, line_text, refused_line, sent_line};

use fp_edge::Sink;
use replay_rounds::Departure;
use report_text::{Line, Numeral};
use text_output::{Output, Stop, put_entries};
use window_engine::Step;

/// The refusal of a raw packet, if it was refused.
fn put_answer<K: Sink>(
    output: &mut Output<'_, K>,
    round: u32,
    answer: Option<u8>,
) -> Result<(), Stop>
    requires { IfSome answer IsRefusal }
    ensures { Passes output.old output.new (text_of (refused_line round answer)) result }
{
    let Some(number) = answer else {
        return Ok(());
    };
    output.put_line(&Line::Refused { round, number })
}

/// The refusals of a round's raw packets, in the order of rows.
fn put_answers<K: Sink>(
    output: &mut Output<'_, K>,
    round: u32,
    answers: &[Option<u8>],
) -> Result<(), Stop>
    requires { All (λ answer. IfSome answer IsRefusal) answers.now }
    ensures { Passes output.old output.new (text_of (flat_map (refused_line round) answers.now)) result }
{
    for at in 0..answers.len() {
        put_answer(output, round, answers[at])?;
    }
    Ok(())
}

/// A packet that is sent; its slot's number is spelled anew where it is another than that of the packet before.
fn put_departure<K: Sink>(
    output: &mut Output<'_, K>,
    slot: &mut Numeral,
    departure: Departure,
) -> Result<(), Stop>
    ensures { Passes output.old output.new (line_text (sent_line departure)) result }
{
    slot.set(departure.slot);
    output.put_sent(slot, departure.src, departure.dst)
}

/// What is sent in a round.
fn put_departures<K: Sink>(output: &mut Output<'_, K>, departures: &[Departure]) -> Result<(), Stop>
    ensures { Passes output.old output.new (text_of (map sent_line departures.now)) result }
{
    let mut slot = Numeral::new(0);
    for at in 0..departures.len() {
        put_departure(output, &mut slot, departures[at])?;
    }
    Ok(())
}

/// One of the rounds that a step of a replay played, by its place: its batch, its refusals, and what is sent in it.
pub fn put_round<K: Sink>(output: &mut Output<'_, K>, step: &Step, at: u32) -> Result<(), Stop>
    requires played { StepIsPlayed step.now }
    requires at { at < length step.now.played.batches }
    ensures { Passes output.old output.new (text_of (played_round step.now.collected.first step.now.played at)) result }
{
    let round = step.collected().first + at;
    let place = at as usize;
    put_entries(output, round, &step.batches()[place])?;
    put_answers(output, round, step.answers(place))?;
    put_departures(output, step.departures(place))
}
