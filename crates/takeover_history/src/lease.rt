/// A node in one of its boots, counted from 1.
#[derive(Clone, Copy, Debug, PartialEq, Eq)]
pub struct Holder {
    pub node: u16,
    pub boot: u32,
}

/// The batches from `first` on that the keeper granted to a holder, in a generation.
#[derive(Clone, Copy, Debug, PartialEq, Eq)]
pub struct Lease {
    pub holder: Holder,
    pub generation: u32,
    pub first: u32,
}
