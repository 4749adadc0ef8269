/// A source and a different destination, each an endpoint. Flows are ordered by source, then destination.
#[derive(Clone, Copy, Debug, Default, PartialEq, Eq, PartialOrd, Ord, Hash)]
pub struct Flow {
    pub src: u16,
    pub dst: u16,
}

/// A flow's waiting demand, in slots, and the slot in which it was last served (0: in none).
#[derive(Clone, Copy, Debug, Default, PartialEq, Eq)]
pub struct Item {
    pub flow: Flow,
    pub need: u32,
    pub last: u32,
}

/// What one round records of a flow: whether no earlier batch has it, whether its need starts again at 0, and the slots
/// that are added.
#[derive(Clone, Copy, Debug, Default, PartialEq, Eq)]
pub struct Entry {
    pub flow: Flow,
    pub opens: bool,
    pub clear: bool,
    pub add: u32,
}
