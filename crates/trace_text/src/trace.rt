// What a trace holds.
ghost use Rattle.std.specs.Prelude.{◌≡◌, ◌<◌, ◌≤◌, ◌^◌, ℕ, true, false, Some, length, map, slice_get, sum_by, All, IfOk};
ghost use Rattle.std.specs.List.{range_with_len};
ghost use Rattle.clos_topology.specs.Network.{endpoints_of};
ghost use Rattle.clos_topology.specs.Limits.{IsNetwork};
ghost use Rattle.trace_text.specs.Asks.{slots_asked, ask_for, asks_in, IsAmong};
ghost use Rattle.trace_text.specs.Events.{EventsAreAmong, events_kept};
ghost use Rattle.trace_text.specs.Puts.{AreFew, puts_in};
ghost use Rattle.trace_text.specs.Trace.{asked_at, fate_at, boots_at, raw_at, puts_at, content_by, with_puts, each_below, last_one};
ghost use Rattle.trace_text.specs.Valid.{IsTrace};

use crate::ask::Ask;
use crate::events::{Boot, EventRows, GivenFate, boot_rank, fate_rank};
use crate::order::{
    between, between_near, first_near, is_gap, of_round, settle, sort, start_near, starts_of,
};
use crate::packets::{KeptPacket, bytes_are_below_256, packet_of, packets_of};
use crate::puts::{PutRows, Puts};
use clos_topology::Net;
use loss_world::Fate;
use no_memory::NoMemory;
use std::alloc::{AllocError, Global};
use std::marker::Model;

// How many ranks a round has of asks, of fates, of boots and of raw packets.
const ASK_RANKS: u64 = 65_536;

const FATE_RANKS: u64 = 512;

const BOOT_RANKS: u64 = 256;

const RAW_RANKS: u64 = 1;

/// What befalls the packets of an endpoint in a round.
#[derive(Clone, Copy, Debug, PartialEq, Eq)]
pub struct RoundFates {
    /// Of the one that goes down to the endpoint; None where no row names it.
    pub down: Option<Fate>,
    /// Of the one that goes up from it.
    pub up: Option<Fate>,
    /// The place after them, among all fates of the trace.
    pub next: usize,
}

/// How an endpoint boots in a round.
#[derive(Clone, Copy, Debug, PartialEq, Eq)]
pub struct RoundBoots {
    /// How often.
    pub count: u32,
    /// The version of the last of these boots, if there is one.
    pub version: Option<u8>,
    /// The place after them, among all boots of the trace.
    pub next: usize,
}

/// A trace without faulty row.
#[derive(Drop)]
pub struct Trace {
    net: Net,
    rounds: u32,
    // One a round and flow, by round, then source, then destination.
    asks: Vec<Ask>,
    // Where those of each round begin, and where the last end; empty where there are none.
    ask_starts: Vec<usize>,
    // By round, then endpoint, then way.
    fates: Vec<GivenFate>,
    // The same of fates.
    fate_starts: Vec<usize>,
    // By round, then endpoint; those of one in the order of rows.
    boots: Vec<Boot>,
    // And of boots.
    boot_starts: Vec<usize>,
    // By round; those of one in the order of rows.
    raws: Vec<KeptPacket>,
    // And of raw packets.
    raw_starts: Vec<usize>,
    // The bytes of all raw packets.
    bytes: Vec<u8>,
    puts: Puts,
}

impl Model for Trace {
    ghost use Rattle.std.specs.Prelude.{sum_by};
    ghost use Rattle.clos_topology.specs.Network.{endpoints_of};
    ghost use Rattle.trace_text.specs.Trace.{TraceContent, content_by, with_puts};
    ghost use Rattle.trace_text.specs.Asks.{IsKept, slots_asked};
    ghost use Rattle.trace_text.specs.Events.{AreKept, events_kept};
    ghost use Rattle.trace_text.specs.Valid.{IsTrace};

    ghost Value = { TraceContent };

    ghost view = { λ t. with_puts t.puts (content_by t.net t.rounds (λ round src dst. sum_by (slots_asked round src dst) t.asks.items) (events_kept t.fates.items t.boots.items t.raws.items t.bytes.items)) };

    ghost invariant = { λ t.
        IsKept (endpoints_of t.net) t.rounds t.asks.items t.ask_starts.items
        × AreKept (endpoints_of t.net) t.rounds t.fates.items t.fate_starts.items t.boots.items t.boot_starts.items t.raws.items t.raw_starts.items t.bytes.items
        × IsTrace (with_puts t.puts (content_by t.net t.rounds (λ round src dst. sum_by (slots_asked round src dst) t.asks.items) (events_kept t.fates.items t.boots.items t.raws.items t.bytes.items))) };
}

impl Trace {
    /// A trace of these asks, in any order, these events, and the packets that are put.
    pub(crate) fn of(
        alloc: Global,
        net: Net,
        rounds: u32,
        asks: Vec<Ask>,
        events: EventRows,
        puts: PutRows,
    ) -> Result<Trace, NoMemory>
        requires net { IsNetwork net }
        requires some { 1 ≤ rounds }
        requires few { rounds ≤ 100000 }
        requires among { All (IsAmong (endpoints_of net)) asks.items }
        requires small { (round src dst : ℕ) → sum_by (slots_asked round src dst) asks.items ≤ 100000000 }
        requires bounded { (src dst : ℕ) → sum_by (λ round. sum_by (slots_asked round src dst) asks.items) (range_with_len 0 rounds) ≤ 100000000 }
        requires events { EventsAreAmong (endpoints_of net) events.fates.items events.boots.items events.raws.items events.bytes.items }
        requires boots { length events.boots.items ≤ 67108864 }
        requires raws { length events.raws.items ≤ 67108864 }
        requires puts { AreFew puts }
        ensures content { IfOk result (λ trace. trace ≡ with_puts (each_below (endpoints_of net) (puts_in puts)) (content_by net rounds (λ round src dst. sum_by (slots_asked round src dst) asks.items) (events_kept events.fates.items events.boots.items events.raws.items events.bytes.items))) }
        ensures sound { IfOk result IsTrace }
    {
        let EventRows {
            mut fates,
            mut boots,
            mut raws,
            bytes,
        } = events;
        let asks = settle(alloc, asks)?;
        let ask_starts = starts_of(alloc, rounds, ASK_RANKS, &asks)?;
        sort(&mut fates)?;
        let fate_starts = starts_of(alloc, rounds, FATE_RANKS, &fates)?;
        sort(&mut boots)?;
        let boot_starts = starts_of(alloc, rounds, BOOT_RANKS, &boots)?;
        sort(&mut raws)?;
        let raw_starts = starts_of(alloc, rounds, RAW_RANKS, &raws)?;
        bytes_are_below_256(&bytes);
        bytes_are_below_256(&puts.bytes);
        let puts = Puts::of(alloc, net.endpoints(), puts)?;
        Ok(Trace {
            net,
            rounds,
            asks,
            ask_starts,
            fates,
            fate_starts,
            boots,
            boot_starts,
            raws,
            raw_starts,
            bytes,
            puts,
        })
    }

    /// The net whose endpoints ask.
    pub fn net(&self) -> &Net
        ensures net { result.now ≡ self.now.net }
        ensures sound { IsTrace self.now }
    {
        &self.net
    }

    /// How many endpoints the net has.
    pub fn endpoints(&self) -> u16
        ensures number { result ≡ endpoints_of self.now.net }
        ensures sound { IsTrace self.now }
    {
        self.net.endpoints()
    }

    /// How many rounds the trace has. They are numbered from 0.
    pub fn rounds(&self) -> u32
        ensures number { result ≡ self.now.rounds }
        ensures sound { IsTrace self.now }
    {
        self.rounds
    }

    /// The asks of the round, one a flow, rising by source and then destination.
    pub fn asks_in(&self, round: u32) -> &[Ask]
        requires { round < self.now.rounds }
        ensures { result.now ≡ asks_in self.now round }
    {
        of_round(&self.asks, &self.ask_starts, round)
    }

    /// How many destinations the source asks for in the round.
    pub fn ask_count(&self, round: u32, src: u16) -> usize
        requires round { round < self.now.rounds }
        requires src { src < endpoints_of self.now.net }
        ensures { result ≡ length (asked_at self.now round src) }
    {
        self.asks_by(round, src).len()
    }

    /// One of these destinations, counted from 0 as they rise, and the sum of the asks for it in the round.
    pub fn ask(&self, round: u32, src: u16, at: usize) -> (u16, u32)
        requires round { round < self.now.rounds }
        requires src { src < endpoints_of self.now.net }
        requires at { at < length (asked_at self.now round src) }
        ensures { slice_get (asked_at self.now round src) at ≡ Some result }
    {
        let ask = self.asks_by(round, src)[at];
        (ask.dst, ask.slots)
    }

    /// The asks of the source in the round, one a destination, rising by destination.
    pub fn asks_by(&self, round: u32, src: u16) -> &[Ask]
        requires round { round < self.now.rounds }
        requires src { src < endpoints_of self.now.net }
        ensures { result.now ≡ map (ask_for round src) (asked_at self.now round src) }
    {
        let asks = of_round(&self.asks, &self.ask_starts, round);
        let low = (u64::from(round) * 256 + u64::from(src)) * 256;
        between(asks, low, low + 256)
    }

    /// The same, and the place after them. This place among all asks of the trace is tried first.
    pub fn asks_near(&self, round: u32, src: u16, near: usize) -> (&[Ask], usize)
        requires round { round < self.now.rounds }
        requires src { src < endpoints_of self.now.net }
        ensures { result.0.now ≡ map (ask_for round src) (asked_at self.now round src) }
    {
        let low = (u64::from(round) * 256 + u64::from(src)) * 256;
        between_near(&self.asks, low, low + 256, near)
    }

    /// What befalls the packet that goes up from the endpoint in the round, or down to it; None where no row names it.
    pub fn fate(&self, round: u32, endpoint: u16, up: bool) -> Option<Fate>
        requires round { round < self.now.rounds }
        requires endpoint { endpoint < endpoints_of self.now.net }
        ensures { result ≡ fate_at self.now round endpoint up }
    {
        self.fate_near(round, endpoint, up, 0).0
    }

    /// The same, which is looked for at this place of the round's fates first; and the place after it.
    #[inline(always)]
    pub fn fate_near(
        &self,
        round: u32,
        endpoint: u16,
        up: bool,
        near: usize,
    ) -> (Option<Fate>, usize)
        requires round { round < self.now.rounds }
        requires endpoint { endpoint < endpoints_of self.now.net }
        ensures { result.0 ≡ fate_at self.now round endpoint up }
    {
        let rank = fate_rank(round, endpoint, up);
        let fates = of_round(&self.fates, &self.fate_starts, round);
        let (given, next) = first_near(fates, rank, near);
        match given {
            Some(given) => (Some(given.fate), next),
            None => (None, next),
        }
    }

    /// What befalls the packet that goes down to the endpoint in the round and the one that goes up from it, and the place after them. This
    /// place among all fates of the trace is tried first.
    #[inline]
    pub fn fates_near(&self, round: u32, endpoint: u16, near: usize) -> RoundFates
        requires round { round < self.now.rounds }
        requires endpoint { endpoint < endpoints_of self.now.net }
        ensures down { result.down ≡ fate_at self.now round endpoint false }
        ensures up { result.up ≡ fate_at self.now round endpoint true }
    {
        let low = fate_rank(round, endpoint, false);
        if is_gap(&self.fates, low, low + 2, near) {
            return RoundFates {
                down: None,
                up: None,
                next: near,
            };
        }
        RoundFates {
            down: self.fate(round, endpoint, false),
            up: self.fate(round, endpoint, true),
            next: start_near(&self.fates, low + 2, near),
        }
    }

    /// How often the endpoint boots in the round.
    pub fn boots(&self, round: u32, endpoint: u16) -> u32
        requires round { round < self.now.rounds }
        requires endpoint { endpoint < endpoints_of self.now.net }
        ensures { result ≡ length (boots_at self.now round endpoint) }
    {
        self.boots_of(round, endpoint).len() as u32
    }

    /// The version of the last of these boots, if there is one.
    pub fn boot_version(&self, round: u32, endpoint: u16) -> Option<u8>
        requires round { round < self.now.rounds }
        requires endpoint { endpoint < endpoints_of self.now.net }
        ensures { result ≡ last_one (boots_at self.now round endpoint) }
    {
        match self.boots_of(round, endpoint).last() {
            Some(boot) => Some(boot.version),
            None => None,
        }
    }

    /// How often the endpoint boots in the round, the version of the last of these boots, and the place after them. This place among all
    /// boots of the trace is tried first.
    #[inline]
    pub fn boots_near(&self, round: u32, endpoint: u16, near: usize) -> RoundBoots
        requires round { round < self.now.rounds }
        requires endpoint { endpoint < endpoints_of self.now.net }
        ensures count { result.count ≡ length (boots_at self.now round endpoint) }
        ensures version { result.version ≡ last_one (boots_at self.now round endpoint) }
    {
        let rank = boot_rank(round, endpoint);
        if is_gap(&self.boots, rank, rank + 1, near) {
            return RoundBoots {
                count: 0,
                version: None,
                next: near,
            };
        }
        RoundBoots {
            count: self.boots(round, endpoint),
            version: self.boot_version(round, endpoint),
            next: start_near(&self.boots, rank + 1, near),
        }
    }

    fn boots_of(&self, round: u32, endpoint: u16) -> &[Boot]
        requires round { round < self.now.rounds }
        requires endpoint { endpoint < endpoints_of self.now.net }
        ensures boots { map (λ boot. boot.version) result.now ≡ boots_at self.now round endpoint }
        ensures few { length result.now ≤ 67108864 }
    {
        let rank = boot_rank(round, endpoint);
        let boots = of_round(&self.boots, &self.boot_starts, round);
        between(boots, rank, rank + 1)
    }

    /// How many raw packets the round has: no more than a text has bytes.
    pub fn raw_count(&self, round: u32) -> usize
        requires { round < self.now.rounds }
        ensures number { result ≡ length (raw_at self.now round) }
        ensures few { result ≤ 67108864 }
    {
        packets_of(&self.raws, &self.raw_starts, round).len()
    }

    /// One of these packets, counted from 0 in the order of rows.
    pub fn raw(&self, round: u32, at: usize) -> &[u8]
        requires round { round < self.now.rounds }
        requires at { at < length (raw_at self.now round) }
        ensures { slice_get (raw_at self.now round) at ≡ Some result.now }
    {
        packet_of(
            &self.bytes,
            &packets_of(&self.raws, &self.raw_starts, round)[at],
        )
    }

    /// How many packets the endpoint puts.
    pub fn put_count(&self, endpoint: u16) -> usize
        requires { endpoint < endpoints_of self.now.net }
        ensures number { result ≡ length (puts_at self.now endpoint) }
        ensures few { result ≤ 1024 }
    {
        self.puts.count(endpoint)
    }

    /// One of these packets, counted from 0 in the order of rows.
    pub fn put(&self, endpoint: u16, at: usize) -> &[u8]
        requires endpoint { endpoint < endpoints_of self.now.net }
        requires at { at < length (puts_at self.now endpoint) }
        ensures { slice_get (puts_at self.now endpoint) at ≡ Some result.now }
    {
        self.puts.packet(endpoint, at)
    }
}
