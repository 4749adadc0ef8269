//! The rounds of all endpoints of a trace, collected window by window and tied by the slots that are published.
//!
//! `replay_rounds` has the rounds of every endpoint of a trace. `collect.rt` plays a window: each endpoint's rounds one after the
//! other, so that its lane stays in the cache, and parts of the endpoints side by side in threads. What comes from outside is read
//! from the trace into one `Events` that is filled anew for each round; a round's raw packets are read once (`raw.rt`) and handed out
//! by the endpoint that they name (`named.rt`). Endpoints share nothing but what they append to: each round's batch, its refused raw
//! packets and its departures (`part.rt`), which `departures.rt` keeps slot by slot; each part has rounds of its own, and those of the
//! endpoints behind are appended to those of the front. A window that got its slots is handed to the publisher, and right before its
//! rounds of the next window each lane counts what its source is told of each batch (`publish.rt`). `laws.rt` shows, from the laws of
//! `trace_run`, that each endpoint's rounds may be played with what the trace says and the publisher tells.
#![tactic(auto)]

mod collect;
mod departures;
mod handed;
mod laws;
mod named;
mod part;
mod played;
mod publish;
mod raw;
mod rounds;

pub use laws::{every_refusal_has_a_number, every_setting_is_of_a_trace};
pub use no_memory::NoMemory;
pub use played::{Departure, Played};
pub use rounds::ReplayRounds;
