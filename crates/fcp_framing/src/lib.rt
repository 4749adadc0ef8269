//! The packets of the control protocol and their bytes, in versions 1 and 2.
//!
//! An endpoint sends resets and requests up to the arbiter, and the arbiter sends allocations down. Each packet has one spelling;
//! a version 2 packet has a mask of 128 bits where one of version 1 has 64. The layout and the order of the refusals are this project's own profile of the protocol of Fastpass (SIGCOMM 2014).
//!
//! `fcp_framing` reads and writes control packets of versions 1 and 2. Where the fields behind the mask stand follows from the
//! version in the first byte (`fields.rt`: `mask_end`, `mask_in`); all else is one code for both. `upward.rt` and `downward.rt`
//! try the refusals in order on the bytes, the lists in place (`demands.rt`, `told_slots.rt`), the shared fields in `checks.rt`
//! and `mask.rt`, and write the packet only once nothing is refused. The lines of an allocation are walked once (`are_sound`);
//! only where this walk finds a fault are the refusals that look at them tried in order. A list is read over the one that stood
//! before. `encoding.rt` writes; `laws.rt` has the laws of the bytes. A new layout starts in `specs/Versions.antt`,
//! `specs/Spelling.antt` and `specs/Fields.antt`.
#![tactic(auto)]

mod checks;
mod demands;
mod downward;
mod encoding;
mod fields;
mod laws;
mod mask;
mod packet;
mod refusal;
mod told_slots;
mod upward;

pub use downward::decode_down;
pub use encoding::{encode_alloc, encode_req, encode_reset};
pub use laws::{
    bytes_spell_one_packet, packets_have_one_spelling, packets_in_full, spellings_begin_no_other,
    what_follows_is_trailing, what_is_encoded_is_read_back, what_is_read_was_spelled_so,
};
pub use packet::{Demand, Down, Told, Up};
pub use refusal::FrameRefused;
pub use upward::decode_up;
