//! Output lines, written into a buffer and read back.
//!
//! `report_text` writes a line into a buffer of 192 bytes and reads it back, without memory. `names.rt` has the names of
//! refusals. `buffer.rt` has `LineBuffer`, 64 KiB of lines taken once: the frequent lines are spelled where they will lie, the
//! others by `write_line`. `numeral.rt` is a number spelled once for the lines that share it, `short_fields.rt` the table of the
//! numbers below 1,000, whose `put` is inlined: a load of eight bytes and a store of four; a longer number is spelled by a
//! function that is not. `slot_lines.rt` spells the packets of many sources of a slot at once.
#![tactic(auto)]

mod buffer;
mod fields;
mod laws;
mod line;
mod names;
mod numeral;
mod put;
mod read;
mod short_field;
mod short_fields;
mod slot_lines;
mod write;

pub use buffer::LineBuffer;
pub use laws::each_line_has_its_own_spelling;
pub use line::Line;
pub use numeral::Numeral;
pub use read::read_line;
pub use write::write_line;
