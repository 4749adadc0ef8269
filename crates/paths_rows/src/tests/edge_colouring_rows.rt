ghost use Rattle.std.specs.Prelude.{◌≡◌, ◌≤◌};
ghost use Rattle.clos_topology.specs.Network.{Network, endpoints_of};
ghost use Rattle.clos_topology.specs.RackGraph.{IsGraphOf};

use super::put;
use clos_topology::{Net, RackGraph};
use edge_colouring::{Degree, NoMemory, Table, colour};
use greedy_rules::SlotTable;
use std::alloc::Global;
use std::process::Abort;
use std::test::Fail;

mod random;

// Loads the first slot of a table that serves the network's endpoints.
fn load(rt: &impl Abort, graph: &mut RackGraph, net: &Net, slots: &SlotTable)
    requires { endpoints_of net.now ≤ graph.old.room }
    ensures graph { IsGraphOf net.now graph.new.edges }
    ensures room { graph.new.room ≡ graph.old.room }
{
    assert!(rt; 0 < slots.slots());
    assert!(rt; slots.endpoints() == net.endpoints());
    graph.load(net, slots, 0);
}

// Three racks of two and two cores: the fourth edge finds no common free core, and one path is flipped.
#[test]
fn the_fourth_packet_flips_a_path(rt: HostRuntime) -> Result<(), Fail> {
    let alloc = rt.alloc();
    let net = Net::new(3, 2, 2)?;
    let mut slots = SlotTable::open(alloc, 1, 6)?;
    for (source, destination) in [(0, 2), (1, 4), (2, 0), (3, 5)] {
        put(&rt, &mut slots, 0, source, destination);
    }
    let mut graph = RackGraph::open(alloc, 6)?;
    load(&rt, &mut graph, &net, &slots);
    let mut table = Table::open(alloc, &net)?;
    assert_eq!(rt; colour(&graph, 2, &mut table), Ok(()));
    let cores = [Some(1), Some(0), Some(0), Some(1), None, None];
    for (source, core) in cores.iter().enumerate() {
        assert!(rt; (source as u16) < net.endpoints());
        assert_eq!(rt; table.core(source as u16), *core);
    }
    Ok(())
}

// Colours the packets with two cores.
fn colour_with_two(
    rt: &impl Abort,
    alloc: Global,
    net: &Net,
    packets: &[(u16, u16)],
    table: &mut Table,
) -> Result<Result<(), Degree>, NoMemory>
    requires { table.old.net ≡ net.now }
    ensures { table.new.net ≡ table.old.net }
{
    let mut slots = SlotTable::open(alloc, 1, net.endpoints())?;
    for (source, destination) in packets {
        put(rt, &mut slots, 0, *source, *destination);
    }
    let mut graph = RackGraph::open(alloc, net.endpoints())?;
    load(rt, &mut graph, net, &slots);
    Ok(colour(&graph, 2, table))
}

// Three racks of three: the left racks come before the right ones, and the cores of the slot before stay.
#[test]
fn a_rack_with_three_edges_and_two_colours_is_refused(rt: HostRuntime) -> Result<(), Fail> {
    let alloc = rt.alloc();
    let net = Net::new(3, 3, 3)?;
    let mut table = Table::open(alloc, &net)?;
    let refused = |left, rack| Err(Degree {
        left,
        rack,
        degree: 3,
    });
    let cases = [
        ([(1, 3), (0, 6), (3, 1)], Ok(())),
        ([(0, 3), (1, 4), (2, 5)], refused(true, 0)),
        ([(0, 3), (1, 4), (6, 5)], refused(false, 1)),
        ([(3, 6), (4, 7), (5, 8)], refused(true, 1)),
    ];
    for (packets, answer) in cases {
        assert_eq!(rt;
            colour_with_two(&rt, alloc, &net, &packets, &mut table)?,
            answer
        );
        assert_eq!(rt;
            (table.core(0), table.core(1), table.core(2)),
            (Some(0), Some(1), None)
        );
    }
    Ok(())
}
