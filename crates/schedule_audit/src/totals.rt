//! What the lines say that sum a text up.
use greedy_rules::Flow;

/// What a `flow`, a `count` or an `end` line says, as far as the batches decide it.
#[derive(Clone, Copy, Debug)]
pub enum Total {
    Flow {
        flow: Flow,
        demanded: u32,
        allocated: u32,
        pending: u32,
    },
    Count {
        flow: Flow,
        demanded: u32,
        acknowledged: u32,
        flight: u32,
        pending: u32,
        lost: u32,
    },
    End,
}
