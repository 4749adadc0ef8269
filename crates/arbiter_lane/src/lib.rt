//! The arbiter's side for one endpoint: it records what the endpoint asks for, tells it its slots, and finds lost what it was not
//! told.
//!
//! `arbiter_lane` keeps the arbiter's side for one endpoint. `lane.rt` has the calls of a round: `fill_down` tells the endpoint's
//! slots of the batch two windows before and `make_down` spells what it fills in, `take_up` reads what arrives, `record` appends
//! the round's entries; beside them `allocated` counts slots that are published, and `count` and `epoch` read. `line.rt` is what
//! is kept of one flow: its ledger, whether a batch has it, and how much of what is owed is entered. `flows.rt` says what each
//! call makes of all lines; it takes the lines alone, so that it can run while the lane is not whole. `telling.rt` tells slots
//! under a new number, or takes them for lost where none may be sent; `tellings.rt` keeps what was told until it is decided: a
//! `SendWindow` of bare numbers and 129 places (`places.rt`), where what is told is written into the place of its number and
//! counted where it lies. A line that rises or loses slots is marked, and `record` walks the marked lines alone, every line only
//! after a reset. Only `record` takes memory, for the batch. The scratch of `take_up` (the packet read, and the numbers that its
//! acknowledgement decides) is a part of the lane, so that no call has a large local. Contracts hold for every history for which
//! the lane stood; the lemmas of each call are one file of `proofs/`: `Beginning`, `Making`, `Refusing`, `Hearing` (with
//! `Reading` and `Taking`), `Recording` (with `Entering`), `Allocating`, `Marking` (which lines are marked), `Carrying` (what
//! lies at the places of numbers), over `Held` and `Changes`.
#![tactic(auto)]

mod flows;
mod lane;
mod laws;
mod line;
mod places;
mod refusal;
mod telling;
mod tellings;

pub use lane::Lane;
pub use laws::conditions_suffice;
pub use line::LaneLine;
pub use no_memory::NoMemory;
pub use refusal::UpRefused;
pub use telling::Telling;
