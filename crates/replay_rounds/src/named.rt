//! The raw packets of a round by the endpoint that they name.
ghost use Rattle.std.specs.Prelude.{◌≡◌, ◌<◌, ◌==◌, filter};
ghost use Rattle.std.specs.List.Sorted.{IsNonDecreasingBy};

use trace_text::{Ranked, between_near};

/// A raw packet of a round that spells a packet: the endpoint that it names, and its place among those of the round.
#[derive(Clone, Copy, Debug, PartialEq, Eq)]
pub(crate) struct Named {
    pub(crate) source: u16,
    pub(crate) place: u32,
}

impl Ranked for Named {
    ghost rank_of = { λ named. named.source };

    fn rank(&self) -> u64 {
        u64::from(self.source)
    }
}

/// Those that name this endpoint, which are looked for at this place first; and the place after them.
pub(crate) fn naming(named: &[Named], endpoint: u16, near: usize) -> (&[Named], usize)
    requires { IsNonDecreasingBy (λ one. one.source) named.now }
    ensures { result.0.now ≡ filter (λ one. one.source == endpoint) named.now }
{
    let low = u64::from(endpoint);
    between_near(named, low, low + 1, near)
}
