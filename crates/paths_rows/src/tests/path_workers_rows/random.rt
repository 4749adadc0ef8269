ghost use Rattle.std.specs.Prelude.{◌≡◌, length, All};
ghost use Rattle.greedy_rules.specs.Matching.{IsMatching};

use super::super::draw;
use super::{colour, core, put};
use clos_topology::Net;
use fp_edge::OpenGate;
use greedy_rules::SlotTable;
use path_workers::{CoreTable, NoMemory, Paths};
use std::alloc::Global;
use std::process::Abort;
use std::sync::Wait;
use std::test::Fail;
use std::thread::Threads;

// The rack that a packet leaves, the rack that it reaches, and its core.
#[derive(Clone, Copy)]
struct Route {
    from: u16,
    to: u16,
    core: Option<u16>,
}

fn route_of(
    rt: &impl Abort,
    net: &Net,
    slots: &SlotTable,
    out: &CoreTable,
    slot: u16,
    source: u16,
) -> Option<Route> {
    assert!(rt; slot < slots.slots());
    assert!(rt; source < slots.endpoints());
    assert!(rt; source < net.endpoints());
    let Some(destination) = slots.to(slot, source) else {
        return None;
    };
    assert!(rt; destination < net.endpoints());
    Some(Route {
        from: net.rack_of(source),
        to: net.rack_of(destination),
        core: core(rt, out, slot, source),
    })
}

// A core of the network is named exactly where the racks differ.
fn check_names(rt: &impl Abort, net: &Net, slots: &SlotTable, out: &CoreTable, slot: u16) {
    for source in 0..net.endpoints() {
        let named = core(rt, out, slot, source);
        let crosses = match route_of(rt, net, slots, out, slot, source) {
            Some(route) => route.from != route.to,
            None => false,
        };
        assert_eq!(rt; named.is_some(), crosses);
        assert!(rt; named < Some(net.cores()));
    }
}

// How many packets of the slot use the link between this rack and this core, on the way up or on the way down.
fn uses(
    rt: &impl Abort,
    net: &Net,
    slots: &SlotTable,
    out: &CoreTable,
    slot: u16,
    link: (u16, u16, bool),
) -> u16 {
    let (rack, core, up) = link;
    let mut uses = 0u16;
    for source in 0..net.endpoints() {
        if let Some(route) = route_of(rt, net, slots, out, slot, source) {
            let at = if up { route.from } else { route.to };
            uses = uses.saturating_add(u16::from(at == rack && route.core == Some(core)));
        }
    }
    uses
}

// Each link between a rack and a core is used at most once in each direction.
fn check_links(rt: &impl Abort, net: &Net, slots: &SlotTable, out: &CoreTable, slot: u16) {
    for rack in 0..net.racks() {
        for core in 0..net.cores() {
            assert!(rt; uses(rt, net, slots, out, slot, (rack, core, true)) <= 1);
            assert!(rt; uses(rt, net, slots, out, slot, (rack, core, false)) <= 1);
        }
    }
}

fn shuffle(rt: &impl Abort, order: &mut [u16], state: &mut u64) {
    for last in 0..order.len() {
        let at = draw(state, last as u64 + 1) as usize;
        assert!(rt; at < order.len());
        order.swap(at, last);
    }
}

// Sends along this permutation of the endpoints, from which one packet in eight is left out.
fn fill_slot(rt: &impl Abort, slots: &mut SlotTable, slot: u16, order: &[u16], state: &mut u64)
    requires { All IsMatching slots.old.slots }
    ensures matchings { All IsMatching slots.new.slots }
    ensures count { length slots.new.slots ≡ length slots.old.slots }
{
    for (source, destination) in order.iter().enumerate() {
        if draw(state, 8) > 0 {
            assert!(rt; source < slots.endpoints() as usize);
            put(rt, slots, slot, source as u16, *destination);
        }
    }
}

fn fill_slots(
    rt: &impl Abort,
    alloc: Global,
    slots: &mut SlotTable,
    state: &mut u64,
) -> Result<(), NoMemory>
    requires { All IsMatching slots.old.slots }
    ensures matchings { All IsMatching slots.new.slots }
    ensures count { length slots.new.slots ≡ length slots.old.slots }
{
    let mut order = Vec::new(alloc);
    for endpoint in 0..slots.endpoints() {
        order.push(endpoint)?;
    }
    for slot in 0..slots.slots() {
        shuffle(rt, &mut order, state);
        fill_slot(rt, slots, slot, &order, state);
    }
    Ok(())
}

fn check_table<R: Abort + Threads + Wait + Sync>(
    rt: &R,
    alloc: Global,
    net: &Net,
    count: u16,
    state: &mut u64,
) -> Result<(), NoMemory> {
    let mut slots = SlotTable::open(alloc, count, net.endpoints())?;
    fill_slots(rt, alloc, &mut slots, state)?;
    assert!(rt; count <= 1024);
    let mut paths = Paths::open(alloc, net, 2, count)?;
    let mut out = CoreTable::open(alloc, count, net.endpoints())?;
    colour(rt, &OpenGate, alloc, &mut paths, net, &slots, &mut out)?;
    for slot in 0..count {
        check_names(rt, net, &slots, &out, slot);
        check_links(rt, net, &slots, &out, slot);
    }
    Ok(())
}

#[test]
fn random_tables_use_no_link_twice(rt: HostRuntime) -> Result<(), Fail> {
    let alloc = rt.alloc();
    let mut state = 11;
    let cases = [
        (1, 6, 1, 10),
        (2, 1, 1, 50),
        (3, 2, 2, 200),
        (4, 4, 4, 200),
        (2, 8, 9, 50),
        (8, 4, 4, 50),
    ];
    for (racks, hosts, cores, count) in cases {
        let net = Net::new(racks, hosts, cores)?;
        check_table(&rt, alloc, &net, count, &mut state)?;
    }
    Ok(())
}
