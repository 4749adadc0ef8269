//! The desk, which brings packets from the rings to the lanes.
ghost use Rattle.std.specs.Prelude.{◌≡◌, ◌<◌, ◌≤◌, ℕ, List, [], ◌∷◌, ◌++◌, length, map, set, All, IfOk, IfSome, OnOk, Some, slice_get};
ghost use mathlib.Core.List.{IsPrefix};
ghost use Rattle.front_desk.specs.declared.progress.Progress.TheVariants as progress_of;
ghost use Rattle.front_desk.specs.State.{LineState, IsSeatOf, AreOpened, HavePolled, recorded_line};
ghost use Rattle.front_desk.specs.Answers.{answers_of, desk_entries_from};
ghost use Rattle.front_desk.specs.Standing.{AreDeskLines, state_of};

use crate::NoMemory;
use crate::line::Line;
use crate::seat::{Seat, Seats};
use greedy_rules::Batch;
use std::alloc::Global;
use std::marker::Model;

/// One desk over the rings of all endpoints, in round 0. Clauses see a line for each endpoint, by rising endpoint: the packets taken
/// of its ring, in the order in which they were put.
#[derive(Drop)]
pub struct Desk {
    lines: Vec<Line>,
}

impl Model for Desk {
    ghost use Rattle.std.specs.Prelude.{List, length, map};
    ghost use Rattle.front_desk.specs.State.{LineState};
    ghost use Rattle.front_desk.specs.Standing.{AreDeskLines, state_of};

    ghost Value = { List LineState };

    ghost view = { λ desk. map state_of desk.lines.items };

    ghost invariant = { λ desk. AreDeskLines (length desk.lines.items) desk.lines.items };
}

impl Desk {
    /// A desk for so many endpoints, with batches of `b` slots and windows of `g` rounds, and the seats, each of which takes `room`
    /// packets. After it only [`record`](Desk::record) takes memory.
    pub fn open(
        alloc: Global,
        endpoints: u16,
        b: u8,
        g: u8,
        room: u32,
    ) -> Result<(Desk, Seats), NoMemory>
        requires endpoints { endpoints ≤ 256 }
        requires some_slot { 1 ≤ b }
        requires most_slots { b ≤ 64 }
        requires some_round { 1 ≤ g }
        requires most_rounds { g ≤ 16 }
        requires some_room { 1 ≤ room }
        requires most_room { room ≤ 1024 }
        ensures { IfOk result (λ opened. AreOpened endpoints b g room opened.0 opened.1) }
    {
        let mut lines = Vec::with_capacity(alloc, usize::from(endpoints))?;
        let mut seats = Vec::with_capacity(alloc, usize::from(endpoints))?;
        for endpoint in 0..endpoints {
            let (line, seat) = Line::open(alloc, endpoint, endpoints, b, g, room)?;
            lines.push(line)?;
            seats.push(seat)?;
        }
        Ok((Desk { lines }, Seats::new(seats)))
    }

    /// Passes over the rings once, and takes what it sees there. It waits for nobody.
    pub fn poll(&mut self, round: u32)
        // All packets are of one round.
        requires round { round ≡ 0 }
        ensures { HavePolled self.old self.new }
    {
        poll_all(&mut self.lines, round);
    }

    /// Takes the rest of a seat's packets: then all of them were taken.
    pub fn close(&mut self, round: u32, seat: Seat)
        requires round { round ≡ 0 }
        // The seat was opened with this desk.
        requires seat { (line : LineState) × (slice_get self.old seat.endpoint ≡ Some line) × IsSeatOf seat line × (line.progress ≡ progress_of.Open) }
        ensures { (line : LineState) → slice_get self.old seat.endpoint ≡ Some line →
            IsPrefix line.taken seat.put
            × (self.new ≡ set self.old seat.endpoint (record line { taken = seat.put; progress = progress_of.Closed })) }
    {
        let endpoint = seat.endpoint();
        self.lines[endpoint as usize].close(round, seat);
    }

    /// How many packets of this endpoint were taken.
    pub fn taken(&self, endpoint: u16) -> usize
        requires { endpoint < length self.now }
        ensures { IfSome (slice_get self.now endpoint) (λ line. result ≡ length line.taken) }
    {
        self.lines[endpoint as usize].taken()
    }

    /// What the endpoint's lane answered to the packet at this place, counted from 0: 0 where it accepted it, else the number of the
    /// refusal.
    pub fn answer(&self, endpoint: u16, at: usize) -> u8
        requires endpoint { endpoint < length self.now }
        requires taken { IfSome (slice_get self.now endpoint) (λ line. at < length line.taken) }
        ensures { IfSome (slice_get self.now endpoint) (λ line. slice_get (answers_of endpoint (length self.now) line.taken) at ≡ Some result) }
    {
        self.lines[endpoint as usize].answer(at)
    }

    /// Records what all lanes have read, by rising endpoint. After `NoMemory` desk and batch are only to be dropped.
    pub fn record(&mut self, round: u32, batch: &mut Batch) -> Result<(), NoMemory>
        requires round { round ≡ 0 }
        // Every seat was closed, and nothing was recorded yet.
        requires closed { All (λ (line : LineState). line.progress ≡ progress_of.Closed) self.old }
        requires empty { batch.old.entries ≡ [] }
        ensures entries { OnOk result (batch.new.entries ≡ desk_entries_from (length self.old) 0 self.old) }
        ensures limits { batch.new.limits ≡ batch.old.limits }
        ensures recorded { OnOk result (self.new ≡ map recorded_line self.old) }
    {
        record_all(&mut self.lines, round, batch)
    }
}

/// Takes what is seen in each ring.
fn poll_all(lines: &mut [Line], round: u32)
    requires round { round ≡ 0 }
    requires lines { AreDeskLines (length lines.old) lines.old }
    ensures lines { AreDeskLines (length lines.old) lines.new }
    ensures as_many { length lines.new ≡ length lines.old }
    ensures polled { HavePolled (map state_of lines.old) (map state_of lines.new) }
{
    for endpoint in 0..lines.len() {
        lines[endpoint].poll(round);
    }
}

/// Records what each line has read, by rising endpoint.
fn record_all(lines: &mut [Line], round: u32, batch: &mut Batch) -> Result<(), NoMemory>
    requires round { round ≡ 0 }
    requires lines { AreDeskLines (length lines.old) lines.old }
    requires closed { All (λ (line : LineState). line.progress ≡ progress_of.Closed) (map state_of lines.old) }
    requires empty { batch.old.entries ≡ [] }
    ensures lines { AreDeskLines (length lines.old) lines.new }
    ensures as_many { length lines.new ≡ length lines.old }
    ensures entries { OnOk result (batch.new.entries ≡ desk_entries_from (length lines.old) 0 (map state_of lines.old)) }
    ensures limits { batch.new.limits ≡ batch.old.limits }
    ensures recorded { OnOk result (map state_of lines.new ≡ map recorded_line (map state_of lines.old)) }
{
    for endpoint in 0..lines.len() {
        lines[endpoint].record(round, batch)?;
    }
    Ok(())
}
