//! Why bytes are no packet.

ghost use Rattle.std.specs.Prelude.{◌≡◌};
ghost use Rattle.fcp_framing.specs.Refusals.{frame_refusal_number};

/// Why bytes are no packet: the first of these, in this order, whose condition holds of the bytes.
#[derive(Clone, Copy, Debug, PartialEq, Eq)]
pub enum FrameRefused {
    /// Bytes are missing.
    Short = 1,
    /// The version is neither 1 nor 2.
    Version = 2,
    /// The call reads no such kind.
    Kind = 3,
    /// An endpoint is not there.
    Endpoint = 4,
    /// The list is too long.
    Count = 5,
    /// The list does not rise strictly.
    Order = 6,
    /// An endpoint is named as its own destination.
    SelfFlow = 7,
    /// A total, an offset or a core is too great.
    TooMuch = 8,
    /// A bit of the mask stands for a number below 1.
    Mask = 9,
    /// Bytes follow the packet.
    Trailing = 10,
    /// The epoch is 0.
    Epoch = 11,
    /// The number of the packet is 0.
    Seq = 12,
}

impl FrameRefused {
    /// The refusal's number, from 1 to 12 in the order of the checks.
    pub fn number(self) -> u8
        ensures { result ≡ frame_refusal_number self }
    {
        self as u8
    }
}
