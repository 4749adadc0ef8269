//! What a lane keeps of a flow.
ghost use Rattle.std.specs.Prelude.{◌≡◌, ◌+◌, ◌<◌, ◌≤◌, ◌^◌, false, IfSome};

use flow_ledger::FlowCount;
use greedy_rules::{Entry, Flow};

/// The flow to one destination: whether a batch has it, its counts since the last reset, and how many of the slots that were
/// demanded and lost since then are in batches.
#[derive(Clone, Copy, Debug)]
pub struct LaneLine {
    pub(crate) opened: bool,
    pub(crate) entered: u32,
    pub(crate) count: FlowCount,
}

impl LaneLine {
    ghost use Rattle.arbiter_lane.specs.Lines.{IsEntered, HasStartedAgain, entry_on};

    /// A flow that no batch has, and of which nothing was demanded.
    pub(crate) fn new() -> LaneLine
        ensures opened { result.opened ≡ false }
        ensures started { HasStartedAgain result result }
    {
        LaneLine {
            opened: false,
            entered: 0,
            count: FlowCount::new(),
        }
    }

    /// The entry of the flow, where it has one: it has risen since it was entered last, or its demand starts again.
    pub(crate) fn entry(&self, flow: Flow, resets: bool) -> Option<Entry>
        requires fits { self.now.count.demanded + self.now.count.lost < 2 ^ 32 }
        requires risen { self.now.entered ≤ self.now.count.demanded + self.now.count.lost }
        ensures entry { result ≡ entry_on self.now flow resets }
        ensures flow { IfSome result (λ entry. entry.flow ≡ flow) }
    {
        let add = self.count.demanded + self.count.lost - self.entered;
        let clear = resets && self.opened;
        if add == 0 && !clear {
            return None;
        }
        Some(Entry {
            flow,
            opens: add > 0 && !self.opened,
            clear,
            add,
        })
    }

    /// Takes all that the flow has risen by for entered.
    pub(crate) fn settle(&mut self)
        requires fits { self.old.count.demanded + self.old.count.lost < 2 ^ 32 }
        requires risen { self.old.entered ≤ self.old.count.demanded + self.old.count.lost }
        ensures { IsEntered self.old self.new }
    {
        let owed = self.count.demanded + self.count.lost;
        let rises = owed - self.entered > 0;
        self.opened |= rises;
        self.entered = owed;
    }

    /// Starts the counts again at 0.
    pub(crate) fn restart(&mut self)
        ensures { HasStartedAgain self.old self.new }
    {
        self.entered = 0;
        self.count.restart();
    }
}
