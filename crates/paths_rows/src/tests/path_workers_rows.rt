ghost use Rattle.std.specs.Prelude.{◌≡◌, ◌≤◌, length, All, OnOk};
ghost use Rattle.greedy_rules.specs.Matching.{IsMatching};
ghost use Rattle.clos_topology.specs.Network.{endpoints_of};
ghost use Rattle.path_workers.specs.Coloured.{IsWithinCores};

use clos_topology::{Net, RackGraph};
use edge_colouring::{Table, limits_are_degrees};
use fp_edge::{Gate, OpenGate};
use greedy_rules::SlotTable;
use path_workers::{CoreTable, NoMemory, Paths};
use std::alloc::Global;
use std::process::Abort;
use std::sync::Wait;
use std::test::Fail;
use std::thread::Threads;

mod random;
mod taken;

// Lets a source send, where neither it nor the destination has a packet in the slot.
fn put(rt: &impl Abort, slots: &mut SlotTable, slot: u16, source: u16, destination: u16)
    requires { All IsMatching slots.old.slots }
    ensures matchings { All IsMatching slots.new.slots }
    ensures count { length slots.new.slots ≡ length slots.old.slots }
{
    assert!(rt; slot < slots.slots());
    assert!(rt; source < slots.endpoints());
    assert!(rt; destination < slots.endpoints());
    assert!(rt; slots.to(slot, source).is_none());
    for other in 0..slots.endpoints() {
        assert!(rt; slots.to(slot, other) != Some(destination));
    }
    slots.put(slot, source, destination);
}

fn put_all(rt: &impl Abort, slots: &mut SlotTable, slot: u16, packets: &[(u16, u16)])
    requires { All IsMatching slots.old.slots }
    ensures matchings { All IsMatching slots.new.slots }
    ensures count { length slots.new.slots ≡ length slots.old.slots }
{
    for (source, destination) in packets {
        put(rt, slots, slot, *source, *destination);
    }
}

// That no rack of a slot has more packets between racks on a side than there are cores.
fn check_degrees(
    rt: &impl Abort,
    alloc: Global,
    net: &Net,
    slots: &SlotTable,
) -> Result<(), NoMemory>
    requires { slots.now.endpoints ≡ endpoints_of net.now }
    ensures { OnOk result (All (IsWithinCores net.now) slots.now.slots) }
{
    limits_are_degrees();
    let mut graph = RackGraph::open(alloc, net.endpoints())?;
    let mut table = Table::open(alloc, net)?;
    for slot in 0..slots.slots() {
        graph.load(net, slots, slot);
        let coloured = edge_colouring::colour(&graph, net.cores(), &mut table).is_ok();
        assert!(rt; coloured);
    }
    Ok(())
}

// Colours a table that serves the network's endpoints.
fn colour<R: Abort + Threads + Wait + Sync, G: Gate + Sync>(
    rt: &R,
    gate: &G,
    alloc: Global,
    paths: &mut Paths,
    net: &Net,
    slots: &SlotTable,
    out: &mut CoreTable,
) -> Result<(), NoMemory>
    requires net { paths.old.net ≡ net.now }
    requires matchings { All IsMatching slots.now.slots }
    requires count { length slots.now.slots ≤ paths.old.slots }
    ensures net { paths.new.net ≡ paths.old.net }
    ensures slots { paths.new.slots ≡ paths.old.slots }
{
    assert!(rt; slots.endpoints() == net.endpoints());
    assert!(rt; slots.slots() <= out.slots());
    assert!(rt; net.endpoints() <= out.endpoints());
    check_degrees(rt, alloc, net, slots)?;
    paths.colour_slots(rt, gate, slots, out);
    Ok(())
}

fn core(rt: &impl Abort, out: &CoreTable, slot: u16, source: u16) -> Option<u16> {
    assert!(rt; slot < out.slots());
    assert!(rt; source < out.endpoints());
    out.core(slot, source)
}

fn check_row(rt: &impl Abort, out: &CoreTable, slot: u16, expected: &[Option<u16>]) {
    assert!(rt; expected.len() == out.endpoints() as usize);
    for (source, expected) in expected.iter().enumerate() {
        assert_eq!(rt; core(rt, out, slot, source as u16), *expected);
    }
}

fn check_rows(rt: &impl Abort, out: &CoreTable, expected: &[[Option<u16>; 8]]) {
    assert!(rt; expected.len() == out.slots() as usize);
    for (slot, expected) in expected.iter().enumerate() {
        check_row(rt, out, slot as u16, expected);
    }
}

// Three racks of two and two cores: the fourth packet finds no common free core, and one path is flipped, for any number of
// path workers.
#[test]
fn the_fourth_packet_flips_a_path(rt: HostRuntime) -> Result<(), Fail> {
    let alloc = rt.alloc();
    let net = Net::new(3, 2, 2)?;
    let mut slots = SlotTable::open(alloc, 1, 6)?;
    put_all(&rt, &mut slots, 0, &[(0, 2), (1, 4), (2, 0), (3, 5)]);
    for workers in [1, 2, 16] {
        let mut paths = Paths::open(alloc, &net, workers, 1)?;
        let mut out = CoreTable::open(alloc, 1, 6)?;
        colour(&rt, &OpenGate, alloc, &mut paths, &net, &slots, &mut out)?;
        check_row(
            &rt,
            &out,
            0,
            &[Some(1), Some(0), Some(0), Some(1), None, None],
        );
    }
    Ok(())
}

// The first table has three slots, the second one: what the first named past it is forgotten.
#[test]
fn a_table_coloured_again_keeps_nothing(rt: HostRuntime) -> Result<(), Fail> {
    let alloc = rt.alloc();
    let net = Net::new(3, 2, 2)?;
    let mut paths = Paths::open(alloc, &net, 2, 3)?;
    let mut out = CoreTable::open(alloc, 4, 8)?;
    let mut three = SlotTable::open(alloc, 3, 6)?;
    put_all(&rt, &mut three, 0, &[(0, 2), (1, 4), (2, 0), (3, 5)]);
    put_all(&rt, &mut three, 1, &[(0, 1), (2, 4), (5, 3)]);
    put_all(&rt, &mut three, 2, &[(4, 0), (5, 1)]);
    colour(&rt, &OpenGate, alloc, &mut paths, &net, &three, &mut out)?;
    check_rows(
        &rt,
        &out,
        &[
            [Some(1), Some(0), Some(0), Some(1), None, None, None, None],
            [None, None, Some(0), None, None, Some(0), None, None],
            [None, None, None, None, Some(0), Some(1), None, None],
            [None; 8],
        ],
    );
    let mut one = SlotTable::open(alloc, 1, 6)?;
    put_all(&rt, &mut one, 0, &[(1, 5), (4, 2)]);
    colour(&rt, &OpenGate, alloc, &mut paths, &net, &one, &mut out)?;
    check_rows(
        &rt,
        &out,
        &[
            [None, Some(0), None, None, Some(0), None, None, None],
            [None; 8],
            [None; 8],
            [None; 8],
        ],
    );
    Ok(())
}

#[test]
fn the_largest_tables_open(rt: HostRuntime) -> Result<(), Fail> {
    let alloc = rt.alloc();
    let net = Net::new(64, 4, 4)?;
    let _paths = Paths::open(alloc, &net, 16, 1024)?;
    let out = CoreTable::open(alloc, 1024, 256)?;
    assert_eq!(rt; (out.slots(), out.endpoints()), (1024, 256));
    assert_eq!(rt; core(&rt, &out, 1023, 255), None);
    Ok(())
}
