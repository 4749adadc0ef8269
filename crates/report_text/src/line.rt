/// A line of the output. Slots are numbered from 1, batches, rounds and packets of an endpoint from 0.
#[derive(Clone, Copy, Debug, PartialEq, Eq)]
pub enum Line {
    /// What a batch records of a flow.
    Batch {
        batch: u32,
        src: u16,
        dst: u16,
        clear: bool,
        add: u32,
    },
    /// A packet of a slot, and the core that it takes where it leaves its rack.
    Slot {
        slot: u32,
        src: u16,
        dst: u16,
        core: Option<u16>,
    },
    /// A packet that its endpoint sent.
    Sent {
        slot: u32,
        src: u16,
        dst: u16,
    },
    /// A packet from outside that was refused, by the number of its refusal.
    Refused {
        round: u32,
        number: u8,
    },
    /// What became of a flow's demand in a plan.
    Flow {
        src: u16,
        dst: u16,
        demanded: u32,
        allocated: u32,
        pending: u32,
    },
    /// What became of a flow's demand in a replay.
    Count {
        src: u16,
        dst: u16,
        demanded: u32,
        acknowledged: u32,
        flight: u32,
        pending: u32,
        lost: u32,
        sent: u32,
        missed: u32,
    },
    /// The last line.
    End {
        rounds: u32,
    },
    /// What became of all demand in a replay of a made trace: how many flows there are, and the sums of their counts.
    Made {
        number: u32,
        flows: u32,
        demanded: u64,
        acknowledged: u64,
        flight: u64,
        pending: u64,
        lost: u64,
        sent: u64,
        missed: u64,
    },
    /// What a lane answered to a packet of its endpoint: 0 where it was taken, else the number of its refusal.
    Answer {
        endpoint: u16,
        place: u32,
        number: u8,
    },
    /// The lease that the keeper gave to a node.
    Granted {
        message: u32,
        node: u16,
        generation: u32,
        first: u32,
    },
    /// A batch that a node published.
    Published {
        node: u16,
        batch: u32,
    },
    /// An event of a script that was refused, by the place of its refusal.
    Declined {
        row: u32,
        place: u8,
    },
    /// What was asked for of a flow over a script, and sent.
    Total {
        src: u16,
        dst: u16,
        asked: u32,
        sent: u32,
    },
}
