//! One direction of one endpoint.
ghost use Rattle.std.specs.Prelude.{◌≡◌, ◌↔◌, ℕ, ◌+◌, ◌-◌, ◌<◌, ◌≤◌, max, nat_le, List, [], ◌∷◌, ◌++◌, length, take, drop, filter, remove, IfOk, OnOk, OnErr, IfSome, IfNone, IsTrue, option_map, unwrap_or, slice_get, Some, None, vec_len};
ghost use Rattle.loss_world.specs.History.{WorldCall, Departs, AsksFor, asked_of, next_arrival, WorldStandsFor};
ghost use Rattle.loss_world.specs.InTransit.{InFlight, is_due, due_in, rest_of};

use crate::fate::{Rounds, arrival_rounds};
use crate::flight::Flight;
use crate::{Fate, NoMemory};
use std::alloc::Global;
use std::marker::Model;

/// The packets of one direction of one endpoint. Clauses see those that are still to arrive, in the order of sending, and how
/// many buffers the world holds, of 2,048 bytes each.
#[derive(Drop)]
pub struct World {
    /// Those that are under way, and behind them those that have arrived for the last time, whose buffers are used again.
    flights: Vec<Flight>,
    under_way: usize,
}

impl Model for World {
    ghost use Rattle.std.specs.Prelude.{◌≤◌, take, vec_len};
    ghost use Rattle.loss_world.specs.InTransit.{Held};

    ghost Value = { Held };

    ghost view = { λ world. record { flights = take world.under_way world.flights.items; buffers = vec_len world.flights } };

    ghost invariant = { λ world. world.under_way ≤ vec_len world.flights };
}

impl World {
    /// A world in which nothing was sent.
    pub fn open(alloc: Global) -> Result<World, NoMemory>
        ensures stands { IfOk result (λ world. WorldStandsFor world []) }
        ensures buffers { IfOk result (λ world. world.buffers ≡ 0) }
    {
        let flights = Vec::with_capacity(alloc, 1)?;
        Ok(World {
            flights,
            under_way: 0,
        })
    }

    /// Sends a packet in this round, which is not below one that was asked for. A buffer is made only where each one that the
    /// world has is under way.
    #[inline(never)]
    pub fn send(&mut self, round: u32, fate: Option<Fate>, bytes: &[u8]) -> Result<(), NoMemory>
        requires { length bytes.now ≤ 2048 }
        ensures refused { OnErr result (self.new ≡ self.old) }
        ensures stands { OnOk result ((history : List WorldCall) →
            WorldStandsFor self.old history →
            asked_of history ≤ round →
            WorldStandsFor self.new (Departs (record { round = round; fate = fate; bytes = bytes.now }) ∷ history)) }
        ensures buffers { self.new.buffers ≤ max self.old.buffers (length self.new.flights) }
    {
        match arrival_rounds(round, fate) {
            Some(rounds) => self.dispatch(rounds, bytes),
            None => Ok(()),
        }
    }

    /// Whether a packet that is sent now would arrive at once and leave nothing: it has no fate, and none is under way.
    /// [`packets_pass_at_once`](crate::packets_pass_at_once) says what the world stands for where it is read and not sent.
    pub fn passes_at_once(&self, fate: Option<Fate>) -> bool
        ensures { IsTrue result ↔ ((fate ≡ None) × (self.now.flights ≡ [])) }
    {
        fate.is_none() && self.under_way == 0
    }

    /// The next packet that arrives in this round, by the order of sending: its bytes are the front of `buf`. It is taken away
    /// from what is due in the round. None where none is left. The round is not below one that was asked for before.
    pub fn arrive(&mut self, round: u32, buf: &mut [u8; 2048]) -> Option<usize>
        ensures first { option_map (λ length. take length buf.new) result ≡ slice_get (due_in self.old.flights round) 0 }
        ensures taken { due_in self.new.flights round ≡ drop 1 (due_in self.old.flights round) }
        ensures later { (later : ℕ) → round < later → due_in self.new.flights later ≡ due_in self.old.flights later }
        ensures arrival { (history : List WorldCall) →
            WorldStandsFor self.old history →
            asked_of history ≤ round →
            option_map (λ length. take length buf.new) result ≡ next_arrival history round }
        ensures within { IfSome result (λ length. length ≤ 2048) }
        ensures rest { drop (unwrap_or result 0) buf.new ≡ drop (unwrap_or result 0) buf.old }
        ensures stands { (history : List WorldCall) →
            WorldStandsFor self.old history →
            asked_of history ≤ round →
            WorldStandsFor self.new (AsksFor round ∷ history) }
        ensures buffers { self.new.buffers ≤ self.old.buffers }
    {
        let round = u64::from(round);
        self.forget_before(round);
        match first_due(&self.flights[..self.under_way], round) {
            Some(at) => {
                let length = self.flights[at].packet.copy_to(buf);
                self.take_off(at, round);
                Some(length)
            }
            None => None,
        }
    }

    /// Adds a packet that arrives in these rounds.
    fn dispatch(&mut self, rounds: Rounds, bytes: &[u8]) -> Result<(), NoMemory>
        requires { length bytes.now ≤ 2048 }
        ensures refused { OnErr result (self.new ≡ self.old) }
        ensures sent { OnOk result (self.new.flights ≡ self.old.flights ++ record { rounds = rounds; bytes = bytes.now } ∷ []) }
        ensures buffers { self.new.buffers ≤ max self.old.buffers (length self.new.flights) }
    {
        make_flight(&mut self.flights, self.under_way)?;
        self.flights[self.under_way].fill(rounds, bytes);
        self.under_way += 1;
        Ok(())
    }

    /// Forgets what would have arrived in earlier rounds alone.
    fn forget_before(&mut self, round: u64)
        ensures flights { self.new.flights ≡ filter (λ flight. nat_le round flight.rounds.last) self.old.flights }
        ensures buffers { self.new.buffers ≤ self.old.buffers }
    {
        let mut at = 0;
        while at < self.under_way {
            at = self.pass(at, round);
        }
    }

    /// Goes past the packet at this place, and sets it aside where it would have arrived in earlier rounds alone. Answers the place
    /// of the next one.
    fn pass(&mut self, at: usize, round: u64) -> usize
        requires { at < length self.old.flights }
        ensures passed { take result self.new.flights ≡ take at self.old.flights ++ filter (λ flight. nat_le round flight.rounds.last) (take 1 (drop at self.old.flights)) }
        ensures rest { drop result self.new.flights ≡ drop (at + 1) self.old.flights }
        ensures within { result ≤ length self.new.flights }
        ensures buffers { self.new.buffers ≡ self.old.buffers }
    {
        if self.flights[at].rounds.last >= round {
            return at + 1;
        }
        self.set_aside(at);
        at
    }

    /// Sets aside the packet at this place.
    fn set_aside(&mut self, at: usize)
        requires { at < length self.old.flights }
        ensures flights { self.new.flights ≡ remove self.old.flights at }
        ensures buffers { self.new.buffers ≡ self.old.buffers }
    {
        move_behind(&mut self.flights, at, self.under_way);
        self.under_way -= 1;
    }

    /// Takes off the packet at this place, which has arrived in this round, where that was its last.
    fn take_off(&mut self, at: usize, round: u64)
        requires { at < length self.old.flights }
        ensures flights { (flight : InFlight) →
            slice_get self.old.flights at ≡ Some flight →
            self.new.flights ≡ take at self.old.flights ++ (rest_of round flight ++ drop (at + 1) self.old.flights) }
        ensures buffers { self.new.buffers ≡ self.old.buffers }
    {
        if self.flights[at].rounds.last <= round {
            self.set_aside(at);
            return;
        }
        let flight = &mut self.flights[at];
        flight.rounds.next = round + 1;
    }
}

/// The place of the first packet that is due in this round.
fn first_due(flights: &[Flight], round: u64) -> Option<usize>
    ensures none { IfNone result (due_in flights.now round ≡ []) }
    ensures within { IfSome result (λ at. at < length flights.now) }
    ensures before { IfSome result (λ at. due_in (take at flights.now) round ≡ []) }
    ensures due { IfSome result (λ at. (flight : InFlight) → slice_get flights.now at ≡ Some flight → IsTrue (is_due round flight)) }
{
    for (at, flight) in flights.iter().enumerate() {
        if flight.is_due(round) {
            return Some(at);
        }
    }
    None
}

/// Makes one more flight where each is under way.
fn make_flight(flights: &mut Vec<Flight>, under_way: usize) -> Result<(), NoMemory>
    requires { under_way ≤ vec_len flights.old }
    ensures front { take under_way flights.new.items ≡ take under_way flights.old.items }
    ensures made { OnOk result (under_way < vec_len flights.new) }
    ensures refused { OnErr result (vec_len flights.new ≡ vec_len flights.old) }
    ensures few { vec_len flights.new ≤ max (vec_len flights.old) (under_way + 1) }
    ensures kept { vec_len flights.old ≤ vec_len flights.new }
{
    if under_way == flights.len() {
        let flight = Flight::open(*flights.allocator())?;
        flights.push(flight)?;
    }
    Ok(())
}

/// Moves the one at this place behind all others, where there are more under way.
fn move_behind(flights: &mut Vec<Flight>, at: usize, under_way: usize)
    requires within { at < under_way }
    requires under_way { under_way ≤ vec_len flights.old }
    ensures others { take (under_way - 1) flights.new.items ≡ remove (take under_way flights.old.items) at }
    ensures len { vec_len flights.new ≡ vec_len flights.old }
{
    if at + 1 < under_way {
        let gone = flights.remove(at);
        flights.push_reserved(gone);
    }
}

#[cfg(test)]
mod tests;
