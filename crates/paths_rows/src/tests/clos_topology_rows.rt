ghost use Rattle.std.specs.Prelude.{◌≡◌, ◌≤◌};
ghost use Rattle.clos_topology.specs.Network.{endpoints_of};

use super::put;
use clos_topology::{Net, NetRefused, RackGraph};
use greedy_rules::SlotTable;
use std::process::Abort;
use std::test::Fail;

#[test]
fn networks_and_refusals(rt: HostRuntime) -> Result<(), Fail> {
    let range = Some(NetRefused::Range);
    let cases = [
        (1, 1, 1, None),
        (1, 64, 1, None),
        (2, 64, 1, None),
        (64, 4, 4, None),
        (64, 5, 5, range),
        (65, 1, 64, range),
        (1, 65, 64, range),
        (2, 2, 65, range),
        (0, 1, 1, range),
        (1, 0, 1, range),
        (1, 1, 0, range),
    ];
    for (racks, hosts, most, refused) in cases {
        match Net::new(racks, hosts, most) {
            Ok(net) => {
                assert_eq!(rt;
                    (net.racks(), net.hosts(), net.cores()),
                    (racks, hosts, most)
                );
                assert_eq!(rt; refused, None);
            }
            Err(why) => assert_eq!(rt; Some(why), refused),
        }
    }
    Ok(())
}

// Lets the packets into the slot of a table that serves the network's endpoints, and loads their edges.
fn load(
    rt: &impl Abort,
    graph: &mut RackGraph,
    net: &Net,
    slots: &mut SlotTable,
    slot: u16,
    packets: &[(u16, u16)],
)
    requires { endpoints_of net.now ≤ graph.old.room }
    ensures { graph.new.room ≡ graph.old.room }
{
    for (source, destination) in packets {
        put(rt, slots, slot, *source, *destination);
    }
    assert!(rt; slot < slots.slots());
    assert!(rt; slots.endpoints() == net.endpoints());
    graph.load(net, slots, slot);
}

// Three racks of two: the packet from 4 to 5 stays in its rack.
#[test]
fn a_slot_has_an_edge_for_each_packet_between_racks(rt: HostRuntime) -> Result<(), Fail> {
    let alloc = rt.alloc();
    let net = Net::new(3, 2, 2)?;
    let mut slots = SlotTable::open(alloc, 2, 6)?;
    let mut graph = RackGraph::open(alloc, 6)?;
    let packets = [(0, 2), (1, 4), (4, 5), (5, 0)];
    load(&rt, &mut graph, &net, &mut slots, 1, &packets);
    let edges = [(0, 0, 1), (1, 0, 2), (5, 2, 0)];
    assert_eq!(rt; graph.len(), edges.len());
    for (at, edge) in edges.iter().enumerate() {
        assert!(rt; at < graph.len());
        assert_eq!(rt; graph.edge(at), *edge);
    }
    load(&rt, &mut graph, &net, &mut slots, 0, &[]);
    assert!(rt; graph.is_empty());
    Ok(())
}
