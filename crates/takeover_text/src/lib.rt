//! What a takeover shows: the lines of a script's events, event by event, and the totals at its end.
//!
//! `takeover_text` writes the text of a script. `write.rt` has the call, `events.rt` one loop over the events with the lines of
//! each by its outcome, `published.rt` a batch with its slots, `sends.rt` what a hearing sends, `totals.rt` the flows at the end.
//! To change a line, begin in `specs/Lines.antt`.
#![tactic(auto)]

mod events;
mod laws;
mod published;
mod sends;
mod totals;
mod write;

pub use laws::small_takeovers;
pub use write::write_takeover;
