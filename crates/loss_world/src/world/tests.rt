//! What no clause says: that a long run needs no more memory than its packets under way.
use super::*;
use std::test::Fail;

#[test]
fn a_long_run_needs_no_more_memory(rt: HostRuntime) -> Result<(), Fail> {
    let mut world = World::open(rt.alloc())?;
    let packet = [1; 2048];
    let mut buf = [0; 2048];
    let mut given: u32 = 0;
    for round in 0..100_000 {
        let fate = match round % 5 {
            0 => Some(Fate::Hold(100)),
            1 => Some(Fate::Lose),
            2 => Some(Fate::Twice),
            _ => None,
        };
        world.send(round, fate, &packet[..round as usize * 37 % 2049])?;
        while world.arrive(round, &mut buf).is_some() {
            given = given.saturating_add(1);
        }
    }
    assert_eq!(rt; given, 99_980);
    assert_eq!(rt; world.under_way, 20);
    assert!(rt; world.flights.len() <= 22);
    assert!(rt; world.flights.capacity() <= 64);
    Ok(())
}
