use super::opening;
use greedy_rules::{Batch, DemandList, Limits, SlotTable, plain_batch};
use std::test::Fail;

const ONE_RACK: Limits = Limits { hosts: 4, cores: 1 };

// Endpoint 0 can send to 1 or to 2 in a slot, and 3 can send to 1 beside the second.
#[test]
fn three_flows_fill_two_slots(rt: HostRuntime) -> Result<(), Fail> {
    let alloc = rt.alloc();
    let mut list = DemandList::open(alloc, 3)?;
    let mut out = SlotTable::open(alloc, 2, 4)?;
    let mut batch = Batch::with_limits(alloc, ONE_RACK);
    batch.push(opening(0, 1, 1))?;
    batch.push(opening(0, 2, 1))?;
    batch.push(opening(3, 1, 1))?;
    plain_batch(alloc, &mut list, &batch, 1, 2, &mut out)?;
    let sends = [[Some(1), None, None, None], [Some(2), None, None, Some(1)]];
    for (slot, row) in sends.iter().enumerate() {
        for (src, dst) in row.iter().enumerate() {
            assert_eq!(rt; out.to(slot as u16, src as u16), *dst);
        }
    }
    assert_eq!(rt; list.len(), 3);
    Ok(())
}

// Two flows of one source take turns, a batch each; one that is asked for later, and was never served, goes first.
#[test]
fn a_later_ask_goes_first(rt: HostRuntime) -> Result<(), Fail> {
    let alloc = rt.alloc();
    let mut list = DemandList::open(alloc, 3)?;
    let mut out = SlotTable::open(alloc, 2, 4)?;
    let mut batch = Batch::with_limits(alloc, ONE_RACK);
    batch.push(opening(0, 1, 4))?;
    batch.push(opening(0, 2, 4))?;
    plain_batch(alloc, &mut list, &batch, 1, 2, &mut out)?;
    assert_eq!(rt; (out.to(0, 0), out.to(1, 0)), (Some(1), Some(1)));
    let mut later = Batch::with_limits(alloc, ONE_RACK);
    later.push(opening(0, 3, 1))?;
    plain_batch(alloc, &mut list, &later, 3, 2, &mut out)?;
    assert_eq!(rt; (out.to(0, 0), out.to(1, 0)), (Some(2), Some(2)));
    let none = Batch::with_limits(alloc, ONE_RACK);
    plain_batch(alloc, &mut list, &none, 5, 2, &mut out)?;
    assert_eq!(rt; (out.to(0, 0), out.to(1, 0)), (Some(3), Some(1)));
    Ok(())
}

// 65 slots are asked for: a batch of 64 leaves one.
#[test]
fn a_batch_leaves_what_it_could_not_allocate(rt: HostRuntime) -> Result<(), Fail> {
    let alloc = rt.alloc();
    let mut list = DemandList::open(alloc, 1)?;
    let mut out = SlotTable::open(alloc, 64, 2)?;
    let mut batch = Batch::with_limits(alloc, ONE_RACK);
    batch.push(opening(0, 1, 65))?;
    plain_batch(alloc, &mut list, &batch, 1, 64, &mut out)?;
    for slot in 0..out.slots() {
        assert_eq!(rt; out.to(slot, 0), Some(1));
    }
    assert_eq!(rt; list.len(), 1);
    let left = list.item(0);
    assert_eq!(rt; (left.need, left.last), (1, 64));
    Ok(())
}

// Two racks of four hosts and two cores: beside the packet within the first rack, two packets leave it in a slot.
#[test]
fn two_cores_carry_two_packets(rt: HostRuntime) -> Result<(), Fail> {
    let alloc = rt.alloc();
    let mut list = DemandList::open(alloc, 5)?;
    let mut out = SlotTable::open(alloc, 2, 8)?;
    let mut batch = Batch::with_limits(alloc, Limits { hosts: 4, cores: 2 });
    batch.push(opening(0, 1, 1))?;
    batch.push(opening(0, 4, 1))?;
    batch.push(opening(1, 5, 1))?;
    batch.push(opening(2, 6, 1))?;
    batch.push(opening(3, 7, 1))?;
    plain_batch(alloc, &mut list, &batch, 1, 2, &mut out)?;
    let sends = [
        [Some(1), Some(5), Some(6), None],
        [Some(4), None, None, Some(7)],
    ];
    for (slot, row) in sends.iter().enumerate() {
        for (src, dst) in row.iter().enumerate() {
            assert_eq!(rt; out.to(slot as u16, src as u16), *dst);
        }
    }
    Ok(())
}

// Endpoints 3 and 69 send in two slots of three: bits 3 of the first word and 5 of the second.
#[test]
fn a_bit_tells_of_each_endpoint_that_sends(rt: HostRuntime) -> Result<(), Fail> {
    let alloc = rt.alloc();
    let mut list = DemandList::open(alloc, 2)?;
    let mut out = SlotTable::open(alloc, 3, 70)?;
    let mut batch = Batch::with_limits(
        alloc,
        Limits {
            hosts: 64,
            cores: 64,
        },
    );
    batch.push(opening(3, 5, 2))?;
    batch.push(opening(69, 1, 2))?;
    plain_batch(alloc, &mut list, &batch, 1, 3, &mut out)?;
    for (slot, words) in [[8, 32], [8, 32], [0, 0]].iter().enumerate() {
        for (word, bits) in words.iter().enumerate() {
            assert_eq!(rt; out.senders(slot as u16).get(word).copied(), Some(*bits));
        }
    }
    assert_eq!(rt; (out.are_equal(0, 1), out.are_equal(1, 2)), (true, false));
    Ok(())
}
