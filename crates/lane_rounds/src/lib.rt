//! One endpoint's rounds: its agent and its lane, with the lossy world between them.
//!
//! `lane_rounds` joins both ends. `events.rt` has what comes from outside in a round, and the list of refused raw packets.
//! `rounds.rt` has `LaneRounds`, whose `round` is named in `specs/Rounds.antt`, and the parts of a round, in their order:
//! `boot_all`, `ask_all`, `post_down`, `hear`, `post_up`, `read`, `read_raw`, then the lane's `record` and the agent's
//! `send_due`. A downward packet that passes at once is at hand as it was filled in, and `hear` takes it so: it is never spelled,
//! since it would be read back as it is. An upward one is made in a buffer, and `hand_over` leaves it at hand there: its length
//! goes on to `read`, which then reads it where it was made. Others are sent, and `hear_all` and `read_all` take what the world
//! has. Each part takes the ends and the direction that it changes, so that it can run while the rounds are not whole; its
//! contract holds for every list of calls. What is at hand counts, in the clauses of the parts, as a packet more in the world
//! (`with_at_hand`, `with_packet_at_hand`). The two reading loops are proved over what is still due (`proofs/Arriving`); what the
//! agent asks of the packets that it hears is shown in `proofs/Coming`, from the laws on forged packets; `proofs/Playing` says
//! what the calls of each end are in a round of `endpoint_history`, and `proofs/Whole` puts the parts together.
#![tactic(auto)]

mod events;
mod refusal;
mod rounds;

pub use arbiter_lane::UpRefused;
pub use endpoint_agent::Sent;
pub use events::{AskList, Events, RawList, RefusedList};
pub use flow_ledger::FlowCount;
pub use no_memory::NoMemory;
pub use rounds::LaneRounds;
