//! Packets of many threads, brought to the lanes: a seat for each endpoint, into which its own thread puts packets, and one desk,
//! which takes them out and has the lanes read them.
//!
//! `front_desk` brings packets of many threads to the lanes. `seat.rt` has what a thread holds: the producer of its endpoint's
//! `rtrb` ring, into which it puts packets (`packet.rt`) without waiting and without memory. `line.rt` has the other end: the
//! consumer, the endpoint's lane and its answers; `desk.rt` all lines by rising endpoint. `specs/Answers.antt` says what the
//! packets of a line are answered and recorded, by the packets alone, so it is no matter when the desk polled or what came into
//! other seats. `proofs/Crossing.antt`: seats and packets may go to a thread. `proofs/Polls.antt`: what passes over the rings
//! leave, for the crates above.
#![tactic(auto)]

mod desk;
mod laws;
mod line;
mod packet;
mod progress;
mod seat;

pub use desk::Desk;
pub use laws::every_window_records_the_same;
pub use no_memory::NoMemory;
pub use packet::Packet;
pub use seat::{Seat, Seats};

#[cfg(test)]
mod tests;
