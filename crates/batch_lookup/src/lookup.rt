ghost use Rattle.std.specs.Prelude.{◌≡◌};
ghost use Rattle.greedy_rules.specs.Batches.{entry_of};

use greedy_rules::{Batch, Entry, Flow};

/// How a batch is asked for the entry of a flow.
pub struct BatchLookup;

impl BatchLookup {
    /// The batch's entry of the flow, by halving; None where the batch has none.
    pub fn find(batch: &Batch, flow: Flow) -> Option<Entry>
        ensures { result ≡ entry_of batch.now.entries flow }
    {
        batch.find(flow)
    }
}
