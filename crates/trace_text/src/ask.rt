// What one endpoint asks for.
use crate::order::Ranked;

/// How many slots a source asks for towards a destination in a round.
#[derive(Clone, Copy, Debug, PartialEq, Eq)]
pub struct Ask {
    pub round: u32,
    pub src: u16,
    pub dst: u16,
    pub slots: u32,
}

impl Ranked for Ask {
    ghost use Rattle.trace_text.specs.Asks.{rank_of};

    ghost rank_of = { rank_of };

    fn rank(&self) -> u64 {
        (u64::from(self.round) * 256 + u64::from(self.src)) * 256 + u64::from(self.dst)
    }
}
