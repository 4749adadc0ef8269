//! The seats, one for each endpoint.
ghost use Rattle.std.specs.Prelude.{◌≡◌, ◌<◌, ◌≤◌, ◌+◌, [], ◌∷◌, ◌++◌, length, option_to_list, IsSome, ◌↔◌};
ghost use Rattle.rtrb.specs.Ring.{sent, received, known_items, known_free, producer_capacity, ConsumerLooked};
ghost use Rattle.front_desk.specs.State.{ring_of_producer, ring_of_consumer};

use crate::packet::Packet;
use rtrb::{Consumer, Producer};
use std::marker::Model;

/// Where the thread of an endpoint puts its packets, one after the other. It may go to that thread.
#[derive(Drop)]
pub struct Seat {
    endpoint: u16,
    ring: Producer<Packet>,
}

impl Model for Seat {
    ghost use Rattle.std.specs.Prelude.{◌+◌, ◌≤◌, length};
    ghost use Rattle.rtrb.specs.Ring.{sent, known_free, producer_capacity};
    ghost use Rattle.front_desk.specs.State.{SeatState, ring_of_producer};

    ghost Value = { SeatState };

    ghost view = { λ seat. record {
      endpoint = seat.endpoint;
      ring = ring_of_producer seat.ring;
      room = producer_capacity seat.ring;
      put = sent seat.ring;
    } };

    ghost invariant = { λ seat. (length (sent seat.ring) ≤ producer_capacity seat.ring) × (producer_capacity seat.ring ≤ length (sent seat.ring) + known_free seat.ring) };
}

impl Seat {
    /// The seat of an endpoint, at the end of a ring into which nothing was put.
    pub(crate) fn new(endpoint: u16, ring: Producer<Packet>) -> Seat
        requires none { sent ring ≡ [] }
        requires free { known_free ring ≡ producer_capacity ring }
        ensures { result ≡ record { endpoint = endpoint; ring = ring_of_producer ring; room = producer_capacity ring; put = [] } }
    {
        Seat { endpoint, ring }
    }

    /// Whose seat it is.
    pub fn endpoint(&self) -> u16
        ensures { result ≡ self.now.endpoint }
    {
        self.endpoint
    }

    /// Puts a packet behind those before. A seat takes as many as its desk was opened for.
    pub fn put(&mut self, packet: Packet)
        requires { length self.old.put < self.old.room }
        ensures { self.new ≡ record self.old { put = self.old.put ++ packet ∷ [] } }
    {
        self.ring.push_reserved(packet);
    }

    /// How many packets are still in the ring, into which nothing more is put.
    pub(crate) fn count_left(&mut self, ring: &mut Consumer<Packet>) -> usize
        requires ring { self.old.ring ≡ ring_of_consumer ring.old }
        ensures same { self.new ≡ self.old }
        ensures looked { ConsumerLooked ring.old ring.new }
        ensures left { result ≡ length (known_items ring.new) }
        ensures all { received ring.new ++ known_items ring.new ≡ self.old.put }
        ensures few { length self.old.put ≤ self.old.room }
    {
        ring.slots_beside(&mut self.ring)
    }
}

/// The seats of a desk that were not handed out yet, by rising endpoint.
#[derive(Drop)]
pub struct Seats {
    seats: Vec<Seat>,
}

impl Model for Seats {
    ghost use Rattle.std.specs.Prelude.{List};
    ghost use Rattle.front_desk.specs.State.{SeatState};

    ghost Value = { List SeatState };

    ghost view = { λ seats. seats.seats.items };
}

impl Seats {
    pub(crate) fn new(seats: Vec<Seat>) -> Seats
        ensures { result ≡ seats.items }
    {
        Seats { seats }
    }

    /// Hands out the last seat, None where no seat is left.
    pub fn pop(&mut self) -> Option<Seat>
        ensures seat { self.old ≡ self.new ++ option_to_list result }
        ensures some { IsSome result ↔ (0 < length self.old) }
    {
        self.seats.pop()
    }
}
