ghost use Rattle.std.specs.Prelude.{◌≡◌, ◌<◌, ◌≤◌, ◌+◌, ◌*◌, [], length, replicate, true, false, None, IfOk, IsTrue, slice_index, vec_len, vec_capacity};
ghost use Rattle.edge_colouring.specs.Degrees.{racks_on, HasDegreesWithin};
ghost use Rattle.edge_colouring.specs.Holders.{holder, HoldsColours, IsRackOf};
ghost use Rattle.edge_colouring.specs.Turns.{AreTurned, IsTurn, BeginsPath};
ghost use Rattle.edge_colouring.specs.Painted.{IsPainted, Awaits, HasRacks};

use crate::degrees::rack_of;
use crate::ports::Ports;
use clos_topology::RackGraph;
use no_memory::NoMemory;
use std::alloc::Global;

/// Cores for a graph's edges, one edge after the other, and what holds each core at each rack of the two sides.
#[derive(Debug, Drop)]
pub(crate) struct Painting {
    pub(crate) left: Ports,
    pub(crate) right: Ports,
    pub(crate) colours: Vec<Option<u16>>,
}

impl Painting {
    /// For so many racks, with room for so many edges.
    pub(crate) fn open(alloc: Global, racks: u16, edges: u16) -> Result<Painting, NoMemory>
        requires { racks ≤ 64 }
        ensures left { IfOk result (λ painting. length painting.left ≡ racks * 64) }
        ensures right { IfOk result (λ painting. length painting.right ≡ racks * 64) }
        ensures room { IfOk result (λ painting. vec_capacity painting.colours ≡ edges) }
    {
        Ok(Painting {
            left: Ports::open(alloc, racks)?,
            right: Ports::open(alloc, racks)?,
            colours: Vec::with_capacity(alloc, edges as usize)?,
        })
    }

    /// Gives every edge of the graph a core below `most`, and answers whether there are enough of them. There are where no rack
    /// has more edges on a side.
    pub(crate) fn paint(&mut self, graph: &RackGraph, most: u16) -> bool
        requires left_racks { HasRacks true graph.now.edges self.old.left }
        requires right_racks { HasRacks false graph.now.edges self.old.right }
        requires room { length graph.now.edges ≤ vec_capacity self.old.colours }
        requires most { most ≤ 64 }
        ensures painted { IsTrue result → IsPainted graph.now.edges most self.new.colours.items self.new.left self.new.right }
        ensures all { IsTrue result → vec_len self.new.colours ≡ length graph.now.edges }
        ensures enough { HasDegreesWithin most graph.now.edges → IsTrue result }
        ensures capacity { vec_capacity self.new.colours ≡ vec_capacity self.old.colours }
        ensures left_racks { length self.new.left ≡ length self.old.left }
        ensures right_racks { length self.new.right ≡ length self.old.right }
    {
        self.left.clear();
        self.right.clear();
        self.colours.clear();
        for edge in 0..graph.len() as u16 {
            if !self.paint_edge(graph, edge, most) {
                return false;
            }
        }
        true
    }

    /// Gives the next edge the lowest core that is free at both its racks; where none is, one that is free at its left rack,
    /// once a path from its right rack has exchanged it for one that is free there. Answers whether each of its racks has one
    /// below `most`.
    fn paint_edge(&mut self, graph: &RackGraph, edge: u16, most: u16) -> bool
        requires edge { Awaits graph.now.edges most self.old.colours.items self.old.left self.old.right edge }
        requires room { edge < vec_capacity self.old.colours }
        ensures painted { IsTrue result → IsPainted graph.now.edges most self.new.colours.items self.new.left self.new.right }
        ensures one { IsTrue result → vec_len self.new.colours ≡ edge + 1 }
        ensures enough { HasDegreesWithin most graph.now.edges → IsTrue result }
        ensures capacity { vec_capacity self.new.colours ≡ vec_capacity self.old.colours }
        ensures left_racks { length self.new.left ≡ length self.old.left }
        ensures right_racks { length self.new.right ≡ length self.old.right }
    {
        let left = rack_of(graph, true, edge);
        let right = rack_of(graph, false, edge);
        let common = self.left.lowest_common(left, &self.right, right);
        if common < most {
            self.left.put(left, common, Some(edge));
            self.right.put(right, common, Some(edge));
            self.colours.push_reserved(Some(common));
            return true;
        }
        let a = self.left.lowest_free(left);
        let b = self.right.lowest_free(right);
        if a >= most || b >= most {
            return false;
        }
        self.left.put(left, a, Some(edge));
        self.right.put(right, b, Some(edge));
        self.colours.push_reserved(Some(b));
        exchange(
            graph,
            &mut self.left,
            &mut self.right,
            &mut self.colours,
            edge,
            a,
            b,
        );
        true
    }
}

/// Gives the edge core `to` in place of `from` at its rack of a side, where the edge that held `to` takes `from`: the answer.
fn turn(
    graph: &RackGraph,
    left: bool,
    ports: &mut Ports,
    colours: &mut [Option<u16>],
    edge: u16,
    from: u16,
    to: u16,
) -> Option<u16>
    requires edge { edge < length graph.now.edges }
    requires coloured { edge < length colours.old }
    requires rack { IsRackOf ports.old (slice_index (racks_on left graph.now.edges) edge) }
    requires from { from < 64 }
    requires to { to < 64 }
    ensures turn { IsTurn (racks_on left graph.now.edges) from to ports.old ports.new colours.old colours.new edge result }
    ensures room { length ports.new ≡ length ports.old }
{
    let rack = rack_of(graph, left, edge);
    let other = ports.holder(rack, to);
    ports.put(rack, to, Some(edge));
    ports.put(rack, from, other);
    colours[edge as usize] = Some(to);
    other
}

/// Exchanges the cores a and b along the alternating path that begins with this edge, which holds a at its left rack and b
/// at its right one. At its left rack no other edge holds a, so the path never comes back there.
fn exchange(
    graph: &RackGraph,
    left: &mut Ports,
    right: &mut Ports,
    colours: &mut [Option<u16>],
    first: u16,
    a: u16,
    b: u16,
)
    requires { BeginsPath graph.now.edges a b first colours.old left.old right.old }
    ensures left { HoldsColours (racks_on true graph.now.edges) colours.new left.new }
    ensures right { HoldsColours (racks_on false graph.now.edges) colours.new right.new }
    ensures left_room { length left.new ≡ length left.old }
    ensures right_room { length right.new ≡ length right.old }
    ensures turned { AreTurned a b colours.old colours.new }
{
    let mut edge = first;
    loop {
        let Some(other) = turn(graph, false, right, colours, edge, b, a) else {
            return;
        };
        let Some(next) = turn(graph, true, left, colours, other, a, b) else {
            return;
        };
        edge = next;
    }
}
