//! What `slot` and `sent` lines say.
ghost use Rattle.std.specs.Prelude.{◌≡◌};
ghost use Rattle.schedule_audit.specs.Wrong.{same_place};

use greedy_rules::Flow;

/// A flow in a slot: what a `slot` line allocates, and in what a `sent` line sends.
#[derive(Clone, Copy, Debug, PartialEq, Eq)]
pub struct Place {
    pub slot: u32,
    pub flow: Flow,
}

/// A packet's place, and by which core it goes, where it leaves its rack.
#[derive(Clone, Copy, Debug, PartialEq, Eq)]
pub struct Path {
    pub place: Place,
    pub core: Option<u16>,
}

/// What a line says, and the number of the line.
#[derive(Clone, Copy, Debug)]
pub struct Numbered<T> {
    pub line: u32,
    pub said: T,
}

/// Whether two places are one.
pub(crate) fn same_place(one: Place, other: Place) -> bool
    ensures { result ≡ same_place one other }
{
    one.slot == other.slot && one.flow.src == other.flow.src && one.flow.dst == other.flow.dst
}
