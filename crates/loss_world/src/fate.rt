//! What happens to a packet on its way.
ghost use Rattle.std.specs.Prelude.{◌≡◌};
ghost use Rattle.loss_world.specs.InTransit.{rounds_of};

/// What happens to a packet. One with no fate arrives in the round in which it was sent.
#[derive(Clone, Copy, Debug, PartialEq, Eq)]
pub enum Fate {
    /// It never arrives.
    Lose,
    /// It arrives so many rounds later.
    Hold(u8),
    /// It arrives in its round and again in the next.
    Twice,
}

/// The rounds in which a packet arrives: each from `next` to `last`. They are wider than a round's number, so that a late one
/// is past every round.
#[derive(Clone, Copy, Debug)]
pub(crate) struct Rounds {
    pub(crate) next: u64,
    pub(crate) last: u64,
}

/// The rounds in which a packet that is sent in this round arrives, none where it is lost.
pub(crate) fn arrival_rounds(sent: u32, fate: Option<Fate>) -> Option<Rounds>
    ensures { result ≡ rounds_of fate sent }
{
    let sent = u64::from(sent);
    match fate {
        None => Some(Rounds {
            next: sent,
            last: sent,
        }),
        Some(Fate::Lose) => None,
        Some(Fate::Hold(held)) => {
            let late = sent + u64::from(held);
            Some(Rounds {
                next: late,
                last: late,
            })
        }
        Some(Fate::Twice) => Some(Rounds {
            next: sent,
            last: sent + 1,
        }),
    }
}
