//! What an endpoint is handed in a round of a trace.
ghost use Rattle.std.specs.Prelude.{◌≡◌, ◌<◌, ◌≤◌, ◌+◌, ◌*◌, ◌-◌, ℕ, List, [], ◌==◌, length, filter, OnOk};
ghost use Rattle.std.specs.List.Sorted.{IsNonDecreasingBy};
ghost use Rattle.clos_topology.specs.Network.{endpoints_of};
ghost use Rattle.lane_rounds.specs.Outside.{names};
ghost use Rattle.trace_text.specs.Trace.{asked_at};
ghost use Rattle.replay_rounds.specs.Setting.{raw_rows};
ghost use Rattle.replay_rounds.specs.Parts.{events_for, told_by};
ghost use Rattle.replay_rounds.specs.Collecting.{named_in};

use crate::NoMemory;
use crate::named::{Named, naming};
use arrayvec::ArrayVec;
use fcp_framing::Told;
use lane_rounds::{AskList, Events, RawList};
use slot_publisher::Publisher;
use trace_text::Trace;

/// Where the next endpoint's asks, fates and boots of a round are looked for first.
#[derive(Clone, Copy, Debug, Default)]
pub(crate) struct Near {
    asks: usize,
    fates: usize,
    boots: usize,
    raw: usize,
}

/// Writes what the trace says of the round and endpoint. Those of the round's raw packets that spell a packet are told by the endpoint
/// that they name.
pub(crate) fn fill_events(
    events: &mut Events,
    trace: &Trace,
    round: u32,
    endpoint: u16,
    named: &[Named],
    near: &mut Near,
) -> Result<(), NoMemory>
    requires round { round < trace.now.rounds }
    requires endpoint { endpoint < endpoints_of trace.now.net }
    requires named { named.now ≡ named_in trace.now round }
    requires sorted { IsNonDecreasingBy (λ one. one.source) named.now }
    ensures { OnOk result (events.new ≡ events_for trace.now round endpoint) }
{
    let boots = trace.boots_near(round, endpoint, near.boots);
    events.boots = boots.count;
    events.version = boots.version.unwrap_or(1);
    near.boots = boots.next;
    let fates = trace.fates_near(round, endpoint, near.fates);
    events.down = fates.down;
    events.up = fates.up;
    near.fates = fates.next;
    near.asks = fill_asks(&mut events.asks, trace, round, endpoint, near.asks)?;
    let (own, next) = naming(named, endpoint, near.raw);
    near.raw = next;
    fill_raw(&mut events.raw, trace, round, endpoint, own)
}

/// Writes what the endpoint asks for in the round, which is looked for at this place first, and answers the place after it.
fn fill_asks(
    asks: &mut AskList,
    trace: &Trace,
    round: u32,
    endpoint: u16,
    near: usize,
) -> Result<usize, NoMemory>
    requires round { round < trace.now.rounds }
    requires endpoint { endpoint < endpoints_of trace.now.net }
    ensures { OnOk result (asks.new ≡ asked_at trace.now round endpoint) }
{
    asks.clear();
    let (own, next) = trace.asks_near(round, endpoint, near);
    for ask in own {
        asks.push(ask.dst, ask.slots)?;
    }
    Ok(next)
}

/// Writes the round's raw packets that name the endpoint, each with its place.
fn fill_raw(
    raw: &mut RawList,
    trace: &Trace,
    round: u32,
    endpoint: u16,
    own: &[Named],
) -> Result<(), NoMemory>
    requires round { round < trace.now.rounds }
    requires own { own.now ≡ filter (λ one. one.source == endpoint) (named_in trace.now round) }
    ensures { OnOk result (raw.new ≡ filter (λ row. names endpoint (endpoints_of trace.now.net) row.bytes) (raw_rows trace.now round)) }
{
    raw.clear();
    for one in own {
        raw.push(one.place, trace.raw(round, one.place as usize))?;
    }
    Ok(())
}

/// Writes what the endpoint is told in the round of the slots that are published.
pub(crate) fn fill_told(
    told: &mut ArrayVec<Told, 64>,
    publisher: &Publisher,
    g: u8,
    round: u32,
    endpoint: u16,
)
    requires endpoint { endpoint < publisher.now.endpoints }
    requires held { 2 * g ≤ round → (publisher.now.first_batch ≤ round - 2 * g) × (round - 2 * g < publisher.now.first_batch + publisher.now.count) }
    ensures { told.new.items ≡ told_by publisher.now g round endpoint }
{
    let lag = 2 * u32::from(g);
    if lag <= round {
        copy_told(told, publisher.told(endpoint, round - lag));
    } else {
        told.clear();
    }
}

/// Makes the list these slots, at most 64: what stands is written over, and the rest is appended.
fn copy_told(list: &mut ArrayVec<Told, 64>, told: &[Told])
    requires { length told.now ≤ 64 }
    ensures { list.new.items ≡ told.now }
{
    list.truncate(told.len());
    let (front, rest) = told.split_at(list.len());
    list.as_mut_slice().copy_from_slice(front);
    let _ = list.try_extend_from_slice(rest);
}
