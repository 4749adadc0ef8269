use crate::rule::EdgePass;
use greedy_rules::Item;
use item_chain::Chain;
use ring_core::Worker;

/// What a ring has between windows, and a window takes and gives back: its workers by their numbers, the pass of each edge, pass k of
/// the one into worker k, and the nodes that no piece and no worker has.
#[derive(Drop)]
pub(crate) struct Resting {
    pub(crate) workers: Vec<Worker>,
    pub(crate) passes: Vec<EdgePass>,
    pub(crate) spare: Chain<Item>,
}
