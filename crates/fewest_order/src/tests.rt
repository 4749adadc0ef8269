ghost use Rattle.std.specs.Prelude.{◌≡◌, true, false};

use crate::{ByLast, ByNeed, order_batch};
use greedy_rules::{Batch, DemandList, Entry, Flow, Limits, SlotTable};
use std::test::Fail;

const ONE_RACK: Limits = Limits { hosts: 4, cores: 1 };

// An entry that opens a flow.
fn opening(src: u16, dst: u16, add: u32) -> Entry
    ensures { result ≡ record { flow = record { src = src; dst = dst }; opens = true; clear = false; add = add } }
{
    Entry {
        flow: Flow { src, dst },
        opens: true,
        clear: false,
        add,
    }
}

// Endpoint 0 needs three slots to 1 and one to 2, in batches of two slots.
#[test]
fn the_flow_that_needs_least_goes_first(rt: HostRuntime) -> Result<(), Fail> {
    let alloc = rt.alloc();
    let mut list = DemandList::open(alloc, 2)?;
    let mut out = SlotTable::open(alloc, 2, 4)?;
    let mut batch = Batch::with_limits(alloc, ONE_RACK);
    batch.push(opening(0, 1, 3))?;
    batch.push(opening(0, 2, 1))?;
    order_batch::<ByNeed>(alloc, &mut list, &batch, 1, 2, &mut out)?;
    assert_eq!(rt; (out.to(0, 0), out.to(1, 0)), (Some(2), Some(1)));
    let none = Batch::with_limits(alloc, ONE_RACK);
    order_batch::<ByNeed>(alloc, &mut list, &none, 3, 2, &mut out)?;
    assert_eq!(rt; (out.to(0, 0), out.to(1, 0)), (Some(1), Some(1)));
    Ok(())
}

// The same demand by the slots in which the flows were last served.
#[test]
fn the_flow_served_least_recently_goes_first(rt: HostRuntime) -> Result<(), Fail> {
    let alloc = rt.alloc();
    let mut list = DemandList::open(alloc, 2)?;
    let mut out = SlotTable::open(alloc, 2, 4)?;
    let mut batch = Batch::with_limits(alloc, ONE_RACK);
    batch.push(opening(0, 1, 3))?;
    batch.push(opening(0, 2, 1))?;
    order_batch::<ByLast>(alloc, &mut list, &batch, 1, 2, &mut out)?;
    assert_eq!(rt; (out.to(0, 0), out.to(1, 0)), (Some(1), Some(1)));
    let none = Batch::with_limits(alloc, ONE_RACK);
    order_batch::<ByLast>(alloc, &mut list, &none, 3, 2, &mut out)?;
    assert_eq!(rt; (out.to(0, 0), out.to(1, 0)), (Some(2), Some(1)));
    Ok(())
}

// Two flows of one source need two slots each, a slot a batch: the first stays in front, since it needs less once served.
#[test]
fn of_two_that_need_the_same_the_first_is_served_to_its_end(rt: HostRuntime) -> Result<(), Fail> {
    let alloc = rt.alloc();
    let mut list = DemandList::open(alloc, 2)?;
    let mut out = SlotTable::open(alloc, 1, 4)?;
    let mut batch = Batch::with_limits(alloc, ONE_RACK);
    batch.push(opening(0, 1, 2))?;
    batch.push(opening(0, 2, 2))?;
    order_batch::<ByNeed>(alloc, &mut list, &batch, 1, 1, &mut out)?;
    assert_eq!(rt; out.to(0, 0), Some(1));
    let none = Batch::with_limits(alloc, ONE_RACK);
    order_batch::<ByNeed>(alloc, &mut list, &none, 2, 1, &mut out)?;
    assert_eq!(rt; out.to(0, 0), Some(1));
    order_batch::<ByNeed>(alloc, &mut list, &none, 3, 1, &mut out)?;
    assert_eq!(rt; out.to(0, 0), Some(2));
    assert_eq!(rt; list.len(), 2);
    assert_eq!(rt; (list.item(0).need, list.item(1).need), (0, 1));
    Ok(())
}
