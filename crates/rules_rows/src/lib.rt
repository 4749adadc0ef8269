//! Worked rows of the allocation: batches slot by slot and flow by flow, and windows of them by the ring.
#![tactic(auto)]

#[cfg(test)]
mod tests;
