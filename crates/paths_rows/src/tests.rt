use greedy_rules::SlotTable;
use std::process::Abort;

mod clos_topology_rows;
mod edge_colouring_rows;
mod path_workers_rows;

// Lets a source send in a slot in which it sends nothing.
fn put(rt: &impl Abort, slots: &mut SlotTable, slot: u16, source: u16, destination: u16) {
    assert!(rt; slot < slots.slots());
    assert!(rt; source < slots.endpoints());
    assert!(rt; destination < slots.endpoints());
    assert!(rt; slots.to(slot, source).is_none());
    slots.put(slot, source, destination);
}

// A number below this one, in a fixed sequence.
fn draw(state: &mut u64, below: u64) -> u64 {
    *state = state
        .wrapping_mul(6364136223846793005)
        .wrapping_add(1442695040888963407);
    if below == 0 {
        0
    } else {
        (*state >> 33) % below
    }
}
