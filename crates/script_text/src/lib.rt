//! Scripts of a takeover: what comes to two arbiters, event by event, read from a text of rows, or the first faulty row.
#![tactic(auto)]

mod kind;
mod read;
mod row;
mod rows;
mod script;

pub use read::read_script;
pub use script::Script;
