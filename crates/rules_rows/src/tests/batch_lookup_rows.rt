use super::opening;
use batch_lookup::BatchLookup;
use greedy_rules::{Batch, Flow, Limits};
use std::process::Abort;
use std::test::Fail;

const ONE_RACK: Limits = Limits {
    hosts: 64,
    cores: 1,
};

// What the entry of the flow adds, if the batch has one.
fn check(rt: &impl Abort, batch: &Batch, src: u16, dst: u16, add: Option<u32>) {
    let expected = match add {
        Some(add) => Some(opening(src, dst, add)),
        None => None,
    };
    assert_eq!(rt; BatchLookup::find(batch, Flow { src, dst }), expected);
}

// Each flow of the batch has its own entry, and its neighbours in the order of flows have none.
#[test]
fn each_flow_has_its_own_entry(rt: HostRuntime) -> Result<(), Fail> {
    let mut batch = Batch::with_limits(rt.alloc(), ONE_RACK);
    batch.push(opening(0, 1, 10))?;
    batch.push(opening(0, 3, 20))?;
    batch.push(opening(2, 0, 30))?;
    batch.push(opening(2, 1, 40))?;
    batch.push(opening(7, 6, 50))?;
    let asks = [
        (0, 0, None),
        (0, 1, Some(10)),
        (0, 2, None),
        (0, 3, Some(20)),
        (0, 4, None),
        (1, 0, None),
        (2, 0, Some(30)),
        (2, 1, Some(40)),
        (2, 2, None),
        (7, 5, None),
        (7, 6, Some(50)),
        (7, 7, None),
        (8, 0, None),
    ];
    for (src, dst, add) in asks {
        check(&rt, &batch, src, dst, add);
    }
    Ok(())
}

#[test]
fn an_empty_batch_has_no_entry(rt: HostRuntime) -> Result<(), Fail> {
    let batch = Batch::with_limits(rt.alloc(), ONE_RACK);
    check(&rt, &batch, 0, 1, None);
    Ok(())
}
