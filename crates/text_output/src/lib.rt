//! Lines on their way to a sink: an output that gathers them, and the lines of a batch.
//!
//! `text_output` brings lines to a sink. `output.rt` has `Output`, a sink with a `LineBuffer` in front of it: each line is
//! spelled behind the one before it, and all are given to the sink where a line more might not fit. What it does with a text is
//! one relation, `Passes` (`specs/Output.antt`), of the output before and after, the text and the answer. `batch.rt` has the
//! lines of a batch, `slots.rt` those of a slot, `transfer.rt` writes whole pieces. `laws.rt` says what comes of one text behind
//! another.
#![tactic(auto)]

mod batch;
mod laws;
mod output;
mod slots;
mod transfer;

pub use batch::put_entries;
pub use laws::texts_follow;
pub use output::{Output, Stop};
pub use slots::put_row;
pub use transfer::write_all;
