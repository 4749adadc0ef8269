//! Packets are received: each endpoint's are put into a desk from threads, and what its lanes answer and record is written as a text.
//!
//! `receive_text` writes what is received. `filling.rt`: a seat and whether there was memory for its packets; `fill_all` puts the
//! packets of all seats by std's `for_each_mut`, in at most four threads, each with a run of endpoints. `receive.rt` opens the
//! desk, lets the seats be filled in a thread beside the desk's passes (`fill_beside`, by `join_mut`, so where no thread can be
//! made the caller does it), closes the seats one after the other and has the lanes record. `write.rt` is the text. No loop of it
//! waits: the desk makes at most 10,000 passes while packets are put, and takes the rest when the seats are closed.
#![tactic(auto)]

mod filling;
mod receive;
mod write;

pub use write::write_receive;
