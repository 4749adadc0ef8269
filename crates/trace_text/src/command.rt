ghost use Rattle.std.specs.Prelude.{◌≡◌};
ghost use Rattle.trace_text.specs.Stage.{takes_kind, takes_rounds};

use crate::kind::Kind;

/// What a trace is read for. A command takes some kinds of rows, and packets are received in one round.
#[derive(Clone, Copy, Debug, PartialEq, Eq)]
pub enum Command {
    Plan,
    Replay,
    Receive,
}

impl Command {
    pub(crate) fn takes(self, kind: Kind) -> bool
        ensures { result ≡ takes_kind self kind }
    {
        match self {
            Command::Plan => matches!(kind, Kind::Net | Kind::Ask | Kind::End),
            Command::Replay => !matches!(kind, Kind::Put),
            Command::Receive => matches!(kind, Kind::Net | Kind::Put | Kind::End),
        }
    }

    /// Whether a trace may have so many rounds, as far as the command goes.
    pub(crate) fn takes_rounds(self, rounds: u32) -> bool
        ensures { result ≡ takes_rounds self rounds }
    {
        match self {
            Command::Receive => rounds == 1,
            Command::Plan | Command::Replay => true,
        }
    }
}
