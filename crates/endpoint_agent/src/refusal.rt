//! Why bytes from the arbiter are refused.

use fcp_framing::FrameRefused;

/// Why bytes from the arbiter are refused: the first of these, in this order, that holds.
#[derive(Clone, Copy, Debug, PartialEq, Eq)]
pub enum DownRefused {
    /// They spell no allocation.
    Frame(FrameRefused),
    /// The allocation is for another endpoint.
    NotMine,
    /// It is of another epoch.
    OtherEpoch,
    /// It is of the other version.
    OtherVersion,
    /// Its number is further below the greatest that arrived than the version lets numbers come late. The acknowledgement was
    /// read.
    OldSeq,
    /// Its number arrived before. The acknowledgement was read.
    Repeat,
}
