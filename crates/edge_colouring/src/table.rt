ghost use Rattle.std.specs.Prelude.{◌≡◌, ◌<◌, ◌≤◌, ◌*◌, length, replicate, true, false, None, All, AllPairs, IfOk, OnOk, OnErr, IfErr, MatchOption, vec_len};
ghost use Rattle.clos_topology.specs.Network.{endpoints_of};
ghost use Rattle.clos_topology.specs.RackGraph.{IsGraphOf};
ghost use Rattle.edge_colouring.specs.Degrees.{HasDegreesWithin, HasRacksBelow, IsFirstExcess};
ghost use Rattle.edge_colouring.specs.Colouring.{IsColouring, MakesClean};
ghost use Rattle.edge_colouring.specs.Cores.{core_in};
ghost use Rattle.edge_colouring.specs.Painted.{AreNamedBySource};

use crate::degrees::{Degree, count_degrees, first_excess};
use crate::painting::Painting;
use clos_topology::{Net, RackGraph};
use no_memory::NoMemory;
use std::alloc::Global;
use std::marker::Model;

/// The cores of a slot's packets, by source, for one network.
#[derive(Debug, Drop)]
pub struct Table {
    net: Net,
    cores: Vec<Option<u16>>,
    degrees: Vec<u16>,
    painting: Painting,
}

impl Model for Table {
    ghost use Rattle.edge_colouring.specs.Cores.{Cores};

    ghost Value = { Cores };

    ghost use Rattle.edge_colouring.specs.Tables.{IsColourTable};

    ghost view = { λ t. record { net = t.net; cores = t.cores.items } };

    ghost invariant = { IsColourTable };
}

impl Table {
    /// A table for this network, which names no core.
    pub fn open(alloc: Global, net: &Net) -> Result<Table, NoMemory>
        ensures net { IfOk result (λ table. table.net ≡ net.now) }
        ensures cores { IfOk result (λ table. table.cores ≡ replicate (endpoints_of net.now) None) }
    {
        let endpoints = net.endpoints();
        Ok(Table {
            net: *net,
            cores: vec![in alloc; None; endpoints as usize]?,
            degrees: vec![in alloc; 0; net.racks() as usize]?,
            painting: Painting::open(alloc, net.racks(), endpoints)?,
        })
    }

    /// The core of the source's packet; None where the source has no edge in the graph that was coloured last.
    pub fn core(&self, src: u16) -> Option<u16>
        requires { src < endpoints_of self.now.net }
        ensures { result ≡ core_in self.now.cores src }
    {
        self.cores[src as usize]
    }

    /// The core of each source's packet, at the source's place, as `core` tells it.
    pub fn cores(&self) -> &[Option<u16>]
        ensures cores { result.now ≡ self.now.cores }
        ensures count { length result.now ≡ endpoints_of self.now.net }
    {
        &self.cores
    }
}

/// Gives every edge of the graph one of so many cores, so that no two edges of a rack on a side share one (König's theorem,
/// by alternating paths). Refused where a rack has more edges on a side: the first such rack, the left side first.
pub fn colour(graph: &RackGraph, colours: u16, table: &mut Table) -> Result<(), Degree>
    requires colours { colours ≤ 64 }
    requires graph { IsGraphOf table.old.net graph.now.edges }
    ensures colouring { OnOk result (IsColouring colours graph.now.edges (core_in table.new.cores)) }
    ensures clean { OnOk result (MakesClean table.old.net.hosts colours graph.now.edges (core_in table.new.cores)) }
    ensures degrees { OnOk result (HasDegreesWithin colours graph.now.edges) }
    ensures excess { IfErr result (IsFirstExcess colours graph.now.edges) }
    ensures unchanged { OnErr result (table.new ≡ table.old) }
    ensures net { table.new.net ≡ table.old.net }
{
    if table.painting.paint(graph, colours) {
        name_cores(graph, &table.painting.colours, &mut table.cores);
        return Ok(());
    }
    // Not every edge got a core, so some rack has too many.
    if let Some(degree) = excess(graph, colours, &mut table.degrees) {
        return Err(degree);
    }
    Ok(())
}

/// The first rack with more edges on a side than this, the left side first.
fn excess(graph: &RackGraph, most: u16, degrees: &mut [u16]) -> Option<Degree>
    requires racks { HasRacksBelow (length degrees.old) graph.now.edges }
    requires room { length degrees.old ≤ 64 }
    ensures { MatchOption result (HasDegreesWithin most graph.now.edges) (IsFirstExcess most graph.now.edges) }
{
    count_degrees(graph, true, degrees);
    if let Some(degree) = first_excess(degrees, true, most) {
        return Some(degree);
    }
    count_degrees(graph, false, degrees);
    first_excess(degrees, false, most)
}

/// Writes each edge's core at its source.
fn name_cores(graph: &RackGraph, colours: &[Option<u16>], cores: &mut [Option<u16>])
    requires rising { AllPairs (λ e f. e.source < f.source) graph.now.edges }
    requires sources { All (λ edge. edge.source < length cores.old) graph.now.edges }
    requires coloured { length colours.now ≡ length graph.now.edges }
    ensures { AreNamedBySource graph.now.edges colours.now cores.new }
{
    cores.fill(None);
    for at in 0..graph.len() {
        let (source, _, _) = graph.edge(at);
        cores[source as usize] = colours[at];
    }
}
