use flow_ledger::FlowCount;

#[test]
fn lost_slots_are_allocated_again(rt: HostRuntime) {
    let mut count = FlowCount::new();
    assert_eq!(rt; count.raise(5), 5);
    assert_eq!(rt; count.raise(3), 0);
    count.allocate(4);
    count.acknowledge(1);
    count.lose(2);
    assert_eq!(rt; count.in_flight(), 1);
    assert_eq!(rt; count.pending(), 3);
    count.allocate(3);
    count.acknowledge(4);
    assert_eq!(rt;
        count,
        FlowCount {
            demanded: 5,
            allocated: 7,
            acknowledged: 5,
            lost: 2
        }
    );
    assert_eq!(rt; count.pending(), 0);
    count.restart();
    assert_eq!(rt; count, FlowCount::default());
}
