use super::opening;
use greedy_rules::{Batch, Flow, Item, Limits};
use item_chain::Chain;
use slot_batches::Stage;
use std::process::Abort;
use std::test::Fail;

// Where each of the first four endpoints sends in the slot at this place.
fn check_slot(rt: &impl Abort, stage: &Stage, place: u16, sends: [Option<u16>; 4]) {
    let slots = stage.slots();
    assert!(rt; place < slots.slots());
    assert!(rt; slots.endpoints() > 3);
    for (src, dst) in sends.iter().enumerate() {
        assert_eq!(rt; slots.to(place, src as u16), *dst);
    }
}

// Racks of four endpoints and two cores: the packet within the rack takes no core, and of four to the other rack two wait
// for the second slot. The list that is left has one piece.
#[test]
fn a_rack_sends_two_packets_a_slot(rt: HostRuntime) -> Result<(), Fail> {
    let alloc = rt.alloc();
    let mut batch = Batch::with_limits(alloc, Limits { hosts: 4, cores: 2 });
    batch.push(opening(0, 1, 1))?;
    batch.push(opening(0, 4, 1))?;
    batch.push(opening(1, 5, 1))?;
    batch.push(opening(2, 6, 1))?;
    batch.push(opening(3, 7, 1))?;
    let mut spare = Chain::new(alloc);
    let blank = Item {
        flow: Flow { src: 0, dst: 0 },
        need: 0,
        last: 0,
    };
    spare.fill(5, blank)?;
    let mut stage = Stage::open(alloc, 8, 2)?;
    assert_eq!(rt; batch.len(), 5);
    stage.begin(&batch, 0, 1, &mut spare);
    assert_eq!(rt; spare.len(), 0);
    stage.finish(&batch);
    check_slot(&rt, &stage, 0, [Some(1), Some(5), Some(6), None]);
    check_slot(&rt, &stage, 1, [Some(4), None, None, Some(7)]);
    let piece = stage.emit().expect(&rt, "a piece");
    assert_eq!(rt; piece.items.len(), 5);
    assert!(rt; piece.end);
    Ok(())
}
