//! The two windows of a connection: which numbers are taken of the other side, and which of one's own are still unresolved.
//!
//! `ack_window` has the two windows of a connection: `take_window.rt` judges the numbers of the other side and tells the
//! acknowledgement, `send_window.rt` keeps what was sent under one's own numbers until an acknowledgement decides it; where one
//! number alone is unresolved, `take_only` takes it out by the acknowledgement's greatest. Contracts speak of the history of all
//! calls, the latest first. Both windows hold the version of their connection; `limits.rt` has the reorder window and the span of
//! each version. `laws.rt` has what holds of both ends of a connection; crates above call these functions and cite their
//! contracts. A law over contents has a type parameter. What a send and a reading make of a sender are steps that its numbers
//! alone decide (`specs/Steps.antt`), so contents may be kept beside the window, as `arbiter_lane` does.
#![tactic(auto)]

mod acknowledgement;
mod laws;
mod limits;
mod send_window;
mod take_window;

pub use acknowledgement::{Acknowledgement, Decision};
pub use laws::{
    both_ends_of_a_direction_agree, each_number_is_taken_once, each_number_keeps_its_content,
    each_version_has_its_limits, open_numbers_stay_within_span, readings_move_what_they_decide,
    senders_go_on_by_step, small_connections, taking_stops_where_loss_starts,
};
pub use limits::{reorder, span};
pub use no_memory::NoMemory;
pub use send_window::{Decided, SendWindow, Unresolved};
pub use take_window::{TakeWindow, Taken};
