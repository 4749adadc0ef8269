//! Why bytes that arrive are refused.

use fcp_framing::FrameRefused;

/// Why bytes that arrive are refused: the first of these, in this order, that holds.
#[derive(Clone, Copy, Debug, PartialEq, Eq)]
pub enum UpRefused {
    /// They spell no packet.
    Frame(FrameRefused),
    /// The packet is another endpoint's.
    NotMine,
    /// It is a request of a greater epoch, whose reset did not arrive.
    Unsynced,
    /// It is of a lower epoch.
    OldEpoch,
    /// It is of the lane's epoch and of the other version of the protocol.
    OtherVersion,
    /// Its number is too far below the greatest that arrived. Its acknowledgement was read.
    OldSeq,
    /// Its number arrived before. Its acknowledgement was read.
    Repeat,
}
