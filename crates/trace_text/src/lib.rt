//! Traces: what was asked for in each round, read from a text of rows, or the first faulty row.
//!
//! `trace_text` turns text into a trace in one forward pass, as the text is given piece by piece (`reader.rt`). Of each piece the whole
//! lines are taken as rows (`whole_lines.rt`): an ask of four numbers is read where it stands (`plain_ask.rt`), most by the head that
//! they share with the ask before, and another line whose fields are plain or stand between quotes is cut at its commas (`line.rt`).
//! Where a line has another quote, it and what stands behind it wait for the end of the text, and are read record by record
//! (`read.rt`, `records.rt`): the kit's `csv` reads a front of the text that holds whole records (`csv_records.rt`, `whole_front.rt`),
//! so that a record takes no more memory than a front, and behind the front whole lines are taken again. A record of which no front
//! shows the end is read by growing parts, until it is seen to have more fields than a row. Of a line the first six fields are kept:
//! they tell what a row is as all do. `mark.rt` drops a byte order mark. `taken_row.rt` reads the fields (a net at once as
//! `clos_topology`'s `Net`, which has the limits; a raw packet stays in hexadecimal until it is kept), `rows.rt` judges the row
//! against the rows so far and keeps it, and takes the asks of a round that follow with the same head in a loop of their own,
//! `events.rt` has fates, boots and raw packets, `order.rt` sorts by rank and finds a part of what is sorted, for any type with a
//! rank, `flow_sums.rt` makes one ask a flow of the asks of a round, in order and without a sort, as they are read, so that no
//! other ask is kept, `trace.rt` answers. `make.rt` draws a trace. `packets.rt` keeps packets one behind the other, each under a
//! number: raw packets under their round, packets that are put under their endpoint (`puts.rt`). `proofs/Crossing.antt`: a trace
//! may be read in several threads.
#![tactic(auto)]

mod ask;
mod command;
mod csv_records;
mod events;
mod fault;
mod fields;
mod flow_sums;
mod kind;
mod line;
mod make;
mod mark;
mod number;
mod order;
mod packets;
mod plain_ask;
mod puts;
mod read;
mod reader;
mod records;
mod rows;
mod taken_row;
mod trace;
mod whole_front;
mod whole_lines;

pub use ask::Ask;
pub use command::Command;
pub use csv_records::CsvRecords;
pub use fault::{Fault, TraceRefused};
pub use fields::{field, number_at};
pub use make::make_trace;
pub use mark::without_mark;
pub use order::{Ranked, between_near};
pub use reader::{TraceReader, read_trace};
pub use trace::{RoundBoots, RoundFates, Trace};
