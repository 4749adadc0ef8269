//! What a packet says.

use arrayvec::ArrayVec;

/// A line of a request: the total that the sender has asked for towards `dst` since its epoch began.
#[derive(Clone, Copy, Debug, Default, PartialEq, Eq)]
pub struct Demand {
    pub dst: u16,
    pub total: u32,
}

/// A line of an allocation: in the slot at `offset` of the batch the endpoint sends to `dst` by way of `core`, 255 for none.
#[derive(Clone, Copy, Debug, Default, PartialEq, Eq)]
pub struct Told {
    pub offset: u8,
    pub core: u8,
    pub dst: u16,
}

/// An upward packet: a request, or a reset, which has its version, its source and its epoch alone.
#[derive(Debug, Default, Drop, PartialEq, Eq)]
pub struct Up {
    /// 1 or 2, which says how wide the mask is.
    pub version: u8,
    pub reset: bool,
    pub src: u16,
    pub epoch: u32,
    pub seq: u32,
    /// The greatest number taken of the other side, 0 for none.
    pub high: u32,
    /// Bit i says that the number `high - 1 - i` was taken.
    pub mask: u128,
    pub demands: ArrayVec<Demand, 255>,
}

/// A downward packet: an allocation.
#[derive(Debug, Default, Drop, PartialEq, Eq)]
pub struct Down {
    /// 1 or 2, which says how wide the mask is.
    pub version: u8,
    pub dst: u16,
    pub epoch: u32,
    pub seq: u32,
    /// The greatest number taken of the other side, 0 for none.
    pub high: u32,
    /// Bit i says that the number `high - 1 - i` was taken.
    pub mask: u128,
    pub batch: u32,
    pub told: ArrayVec<Told, 64>,
}
