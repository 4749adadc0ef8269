ghost use Rattle.std.specs.Prelude.{◌≡◌, ◌<◌, ◌≤◌, ◌↔◌, IsTrue, Some, List, [], ◌++◌, ◌+◌, ◌^◌, length, take, option_map, All, IfOk, IfSome, slice_get};
ghost use Rattle.std.specs.List.{cons_option};
ghost use Rattle.list_facts.specs.Bits.{TellsHeld};
ghost use Rattle.greedy_rules.specs.Schedule.{slot_in};
ghost use Rattle.greedy_rules.specs.SlotTable.{flows_from};
ghost use Rattle.greedy_rules.specs.Senders.{AreSendersOf, words_for};
ghost use Rattle.greedy_rules.specs.Limits.{rack_of};
ghost use Rattle.clos_topology.specs.Network.{endpoints_of};
ghost use Rattle.clos_topology.specs.RackFactor.{IsRackFactor};
ghost use Rattle.clos_topology.specs.RackGraph.{rack_edges, IsGraphOf};

use crate::net::Net;
use greedy_rules::SlotTable;
use no_memory::NoMemory;
use std::alloc::Global;
use std::marker::Model;

/// A packet between racks: its source, the rack that it leaves, and the rack that it reaches.
#[derive(Clone, Copy, Debug, PartialEq, Eq)]
pub struct Edge {
    source: u16,
    left: u16,
    right: u16,
}

/// What stands in a place that no edge has taken yet.
const BLANK: Edge = Edge {
    source: 0,
    left: 0,
    right: 0,
};

/// The packets between racks of one slot, rising by source.
#[derive(Debug, Drop)]
pub struct RackGraph {
    // The first of them are the edges, as many as `count` says.
    places: Vec<Edge>,
    count: usize,
    room: u16,
}

impl Model for RackGraph {
    ghost use Rattle.std.specs.Prelude.{◌<◌, ◌≤◌, ◌^◌, take, vec_len};
    ghost use Rattle.clos_topology.specs.RackGraph.{Graph};

    ghost Value = { Graph };

    ghost view = { λ g. record { edges = take g.count g.places.items; room = g.room } };

    ghost invariant = { λ g. (g.count ≤ g.room) × (g.room ≤ vec_len g.places) × (g.room < 2 ^ 16) };
}

impl RackGraph {
    /// A graph without edges, with room for the packets of so many endpoints.
    pub fn open(alloc: Global, endpoints: u16) -> Result<RackGraph, NoMemory>
        ensures edges { IfOk result (λ graph. graph.edges ≡ []) }
        ensures room { IfOk result (λ graph. graph.room ≡ endpoints) }
    {
        Ok(RackGraph {
            places: vec![in alloc; BLANK; endpoints as usize]?,
            count: 0,
            room: endpoints,
        })
    }

    /// Holds from now on the packets between racks of this slot of the table.
    pub fn load(&mut self, net: &Net, slots: &SlotTable, slot: u16)
        requires slot_in_range { slot < length slots.now.slots }
        requires endpoints { All (λ flow. (flow.src < endpoints_of net.now) × (flow.dst < endpoints_of net.now)) (slot_in slots.now.slots slot) }
        requires room { endpoints_of net.now ≤ self.old.room }
        ensures edges { self.new.edges ≡ rack_edges net.now.hosts (slot_in slots.now.slots slot) }
        ensures graph { IsGraphOf net.now self.new.edges }
        ensures room { self.new.room ≡ self.old.room }
    {
        prove!(slot < slots.slots());
        prove!(net.endpoints() <= self.room);
        let row = slots.row(slot);
        let sources = row.len().min(net.endpoints() as usize);
        self.count = add_all(&mut self.places, net, &row[..sources], slots.senders(slot));
    }

    pub fn len(&self) -> usize
        ensures edges { result ≡ length self.now.edges }
        ensures room { result ≤ self.now.room }
        ensures fits { result < 2 ^ 16 }
    {
        self.count
    }

    pub fn is_empty(&self) -> bool
        ensures { IsTrue result ↔ (self.now.edges ≡ []) }
    {
        self.count == 0
    }

    /// An edge: its source, its left and its right rack.
    pub fn edge(&self, at: usize) -> (u16, u16, u16)
        requires { at < length self.now.edges }
        ensures { slice_get self.now.edges at ≡ Some (record { source = result.0; left = result.1; right = result.2 }) }
    {
        let edge = self.places[at];
        (edge.source, edge.left, edge.right)
    }
}

/// Writes the edges of what the sources of a row send, and answers how many there are. The words tell which of them send.
fn add_all(places: &mut [Edge], net: &Net, row: &[Option<u16>], senders: &[u64]) -> usize
    requires senders { AreSendersOf (flows_from 0 row.now) senders.now }
    requires words { words_for (length row.now) ≤ length senders.now }
    requires endpoints { All (λ flow. (flow.src < endpoints_of net.now) × (flow.dst < endpoints_of net.now)) (flows_from 0 row.now) }
    requires few { length row.now < 2 ^ 16 }
    requires room { length row.now ≤ length places.old }
    ensures within { result ≤ length row.now }
    ensures edges { take result places.new ≡ rack_edges net.now.hosts (flows_from 0 row.now) }
{
    let factor = net.rack_factor();
    let mut count = 0;
    for word in 0..row.len().div_ceil(64) {
        let from = word * 64;
        let end = row.len().min(from + 64);
        let cells = &row[from..end];
        count = add_word(places, count, net, factor, from, cells, senders[word]);
    }
    count
}

/// The same for the sources of a word, the first of them `from`, behind so many edges.
#[inline(always)]
fn add_word(
    places: &mut [Edge],
    before: usize,
    net: &Net,
    factor: u32,
    from: usize,
    row: &[Option<u16>],
    senders: u64,
) -> usize
    requires factor { IsRackFactor net.now.hosts factor }
    requires senders { TellsHeld row.now senders }
    requires endpoints { All (λ flow. (flow.src < endpoints_of net.now) × (flow.dst < endpoints_of net.now)) (flows_from from row.now) }
    requires few { from + length row.now < 2 ^ 16 }
    requires room { before + length row.now ≤ length places.old }
    ensures within { result ≤ before + length row.now }
    ensures edges { take result places.new ≡ take before places.old ++ rack_edges net.now.hosts (flows_from from row.now) }
    ensures count { length places.new ≡ length places.old }
{
    let mut count = before;
    let mut rest = senders;
    while rest != 0 {
        let place = rest.trailing_zeros() as usize;
        count = add(
            places,
            count,
            net,
            factor,
            (from + place) as u16,
            row[place],
        );
        rest &= rest - 1;
    }
    count
}

/// Writes the edge of what the source sends behind so many edges, if it sends between racks, and answers how many there are now.
/// Where it sends at all, the place behind them is written.
fn add(
    places: &mut [Edge],
    count: usize,
    net: &Net,
    factor: u32,
    source: u16,
    destination: Option<u16>,
) -> usize
    requires factor { IsRackFactor net.now.hosts factor }
    requires source { source < endpoints_of net.now }
    requires destination { IfSome destination (λ to. to < endpoints_of net.now) }
    requires room { count < length places.old }
    ensures within { result ≤ count + 1 }
    ensures edges { take result places.new ≡ take count places.old ++ rack_edges net.now.hosts (cons_option (option_map (λ to. record { src = source; dst = to }) destination) []) }
{
    let Some(to) = destination else {
        return count;
    };
    let left = net.rack_by(factor, source);
    let right = net.rack_by(factor, to);
    places[count] = Edge {
        source,
        left,
        right,
    };
    count + usize::from(left != right)
}
