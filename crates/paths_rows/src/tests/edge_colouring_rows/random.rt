ghost use Rattle.std.specs.Prelude.{◌≡◌, ◌≤◌};
ghost use Rattle.clos_topology.specs.Network.{endpoints_of};

use super::super::{draw, put};
use super::load;
use clos_topology::{Net, RackGraph};
use edge_colouring::{NoMemory, Table, colour};
use greedy_rules::SlotTable;
use std::alloc::Global;
use std::process::Abort;
use std::test::Fail;

// An edge that has its core.
#[derive(Clone, Copy)]
struct Painted {
    source: u16,
    left: u16,
    right: u16,
    core: u16,
}

fn holder(painted: &[Painted], left: bool, rack: u16, core: u16) -> Option<usize> {
    for (at, edge) in painted.iter().enumerate() {
        let there = if left { edge.left } else { edge.right };
        if there == rack && edge.core == core {
            return Some(at);
        }
    }
    None
}

fn is_free(painted: &[Painted], left: bool, rack: u16, core: u16) -> bool {
    holder(painted, left, rack, core).is_none()
}

fn lowest_common(painted: &[Painted], left: u16, right: u16, colours: u16) -> Option<u16> {
    for core in 0..colours {
        if is_free(painted, true, left, core) && is_free(painted, false, right, core) {
            return Some(core);
        }
    }
    None
}

fn lowest_free(painted: &[Painted], left: bool, rack: u16) -> u16 {
    for core in 0..64 {
        if is_free(painted, left, rack, core) {
            return core;
        }
    }
    64
}

// The whole path from the right rack first, then the exchange.
fn flip(
    alloc: Global,
    painted: &mut Vec<Painted>,
    right: u16,
    a: u16,
    b: u16,
) -> Result<(), NoMemory> {
    let mut path = Vec::new(alloc);
    let mut rack = right;
    let mut left = false;
    for _ in 0..painted.len() {
        let Some(at) = holder(painted, left, rack, if left { b } else { a }) else {
            break;
        };
        let Some(edge) = painted.get(at) else {
            break;
        };
        rack = if left { edge.right } else { edge.left };
        left = !left;
        path.push(at)?;
    }
    for at in path {
        if let Some(edge) = painted.get_mut(at) {
            edge.core = if edge.core == a { b } else { a };
        }
    }
    Ok(())
}

// The rule, by scans over the edges.
fn plain_colouring(
    alloc: Global,
    graph: &RackGraph,
    colours: u16,
) -> Result<Vec<Painted>, NoMemory> {
    let mut painted = Vec::new(alloc);
    for at in 0..graph.len() {
        let (source, left, right) = graph.edge(at);
        let core = match lowest_common(&painted, left, right, colours) {
            Some(core) => core,
            None => {
                let a = lowest_free(&painted, true, left);
                let b = lowest_free(&painted, false, right);
                flip(alloc, &mut painted, right, a, b)?;
                a
            }
        };
        painted.push(Painted {
            source,
            left,
            right,
            core,
        })?;
    }
    Ok(painted)
}

fn greatest_degree(graph: &RackGraph, racks: u16) -> u16 {
    let mut greatest = 0;
    for rack in 0..racks {
        let (mut left, mut right) = (0u16, 0u16);
        for at in 0..graph.len() {
            let (_, sends, receives) = graph.edge(at);
            left = left.saturating_add(u16::from(sends == rack));
            right = right.saturating_add(u16::from(receives == rack));
        }
        greatest = greatest.max(left).max(right);
    }
    greatest
}

fn is_clean(painted: &[Painted], colours: u16) -> bool {
    for (at, edge) in painted.iter().enumerate() {
        if edge.core >= colours {
            return false;
        }
        for other in painted.iter().take(at) {
            if other.core == edge.core && (other.left == edge.left || other.right == edge.right) {
                return false;
            }
        }
    }
    true
}

// A random permutation of the endpoints, from which one packet in eight is left out.
fn fill_slot(rt: &impl Abort, slots: &mut SlotTable, order: &mut [u16], state: &mut u64) {
    slots.clear();
    for last in 0..order.len() {
        let at = draw(state, last as u64 + 1) as usize;
        assert!(rt; at < order.len());
        order.swap(at, last);
    }
    for source in 0..slots.endpoints() {
        assert!(rt; (source as usize) < order.len());
        let destination = order[source as usize];
        if destination != source && draw(state, 8) > 0 {
            put(rt, slots, 0, source, destination);
        }
    }
}

// Colours the slot with as many cores as its greatest degree.
fn colour_slot(
    rt: &impl Abort,
    alloc: Global,
    net: &Net,
    slots: &SlotTable,
    graph: &mut RackGraph,
    table: &mut Table,
) -> Result<(), NoMemory>
    requires room { endpoints_of net.now ≤ graph.old.room }
    requires net { table.old.net ≡ net.now }
    ensures room { graph.new.room ≡ graph.old.room }
    ensures net { table.new.net ≡ table.old.net }
{
    load(rt, graph, net, slots);
    let colours = greatest_degree(graph, net.racks());
    assert!(rt; colours <= 64);
    assert_eq!(rt; colour(graph, colours, table), Ok(()));
    let painted = plain_colouring(alloc, graph, colours)?;
    assert!(rt; is_clean(&painted, colours));
    for edge in painted.iter() {
        assert!(rt; edge.source < net.endpoints());
        assert_eq!(rt; table.core(edge.source), Some(edge.core));
    }
    Ok(())
}

fn colour_slots(
    rt: &impl Abort,
    alloc: Global,
    net: &Net,
    count: u32,
    state: &mut u64,
) -> Result<(), NoMemory> {
    let mut order = Vec::new(alloc);
    for endpoint in 0..net.endpoints() {
        order.push(endpoint)?;
    }
    let mut slots = SlotTable::open(alloc, 1, net.endpoints())?;
    let mut graph = RackGraph::open(alloc, net.endpoints())?;
    let mut table = Table::open(alloc, net)?;
    for _ in 0..count {
        fill_slot(rt, &mut slots, &mut order, state);
        colour_slot(rt, alloc, net, &slots, &mut graph, &mut table)?;
    }
    Ok(())
}

// 20,000 slots: the cores are clean and those of the rule.
#[test]
fn random_slots_take_the_cores_of_the_rule(rt: HostRuntime) -> Result<(), Fail> {
    let alloc = rt.alloc();
    let mut state = 20_000;
    let cases = [
        (2, 1, 1, 1_000),
        (3, 2, 2, 5_000),
        (4, 4, 4, 5_000),
        (2, 8, 8, 3_000),
        (8, 4, 4, 3_000),
        (5, 7, 7, 2_500),
        (16, 8, 8, 400),
        (16, 16, 16, 100),
    ];
    for (racks, hosts, cores, count) in cases {
        let net = Net::new(racks, hosts, cores)?;
        colour_slots(&rt, alloc, &net, count, &mut state)?;
    }
    Ok(())
}
