//! Lists: facts that the proofs of several crates cite, and the stable sort by a number.
//!
//! `list_facts` has what several crates' proofs need to know of lists: `proofs/Pairs.antt` (what holds of each two elements),
//! `proofs/StableSort.antt`, and the sort itself in `specs/Order.antt`.
#![tactic(auto)]

mod laws;

pub use laws::small_sorts;
