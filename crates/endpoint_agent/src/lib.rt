//! The agent of one endpoint: it asks the arbiter for slots, and sends in those that it is told in time.
//!
//! `endpoint_agent` is the endpoint's side of a connection. `agent.rt` has its calls: `take_allocation` reads the acknowledgement
//! of an allocation of its epoch and version and then judges its number, `take_down` does so with the bytes of one; `make_up`
//! makes a reset or a request; `send_due` ends the round and sends in the slots of the batch that is used then. `lines.rt` has
//! what is kept of each flow: asked, sent, missed, and the first request that may carry the total. A flow whose total changes is
//! marked, a new request looks only at marked flows, and one that is found confirmed loses its mark. Slots wait in three places
//! (`waiting.rt`), batch k in place k % 3. The helpers that change parts are functions over the parts, since each method of a
//! type with a `Model` has to leave its invariant.
#![tactic(auto)]

mod agent;
mod lines;
mod refusal;
mod waiting;

pub use agent::Agent;
pub use lines::{FlowLine, Sent};
pub use no_memory::NoMemory;
pub use refusal::DownRefused;
