//! What is held against a schedule as it goes by.
ghost use Rattle.std.specs.Prelude.{◌≡◌, ◌<◌, ◌≤◌, ◌^◌, ◌++◌, ◌∷◌, [], List, IfOk};
ghost use Rattle.list_facts.specs.Order.{sort_by};
ghost use Rattle.clos_topology.specs.Network.{endpoints_of};
ghost use Rattle.schedule_audit.specs.Lines.{Place};
ghost use Rattle.schedule_audit.specs.Numbered.{Numbered};
ghost use Rattle.schedule_audit.specs.Judged.{order_of, AreBefore};
ghost use Rattle.schedule_audit.specs.Walked.{JudgesStand, StandApart, IsSameText};

use crate::flow_counts::FlowCounts;
use crate::packets::{Numbered, Path, Place};
use crate::path_lines::PathLines;
use crate::send_lines::SendLines;
use clos_topology::Net;
use no_memory::NoMemory;
use std::alloc::Global;

/// The `slot` and the `sent` lines of a text, how many slots each flow got, and how many packets all slots have.
#[derive(Drop)]
pub(crate) struct Judges {
    pub(crate) net: Net,
    pub(crate) paths: PathLines,
    pub(crate) sends: SendLines,
    pub(crate) slots: FlowCounts,
    pub(crate) places: u64,
}

impl Judges {
    pub(crate) fn open(
        alloc: Global,
        net: Net,
        paths: Vec<Numbered<Path>>,
        sends: Vec<Numbered<Place>>,
    ) -> Result<Judges, NoMemory>
        ensures stands { IfOk result (JudgesStand []) }
        ensures net { IfOk result (λ judges. judges.net ≡ net) }
        ensures paths { IfOk result (λ judges. judges.paths.lines.items ≡ paths.items) }
        ensures sends { IfOk result (λ judges. judges.sends.lines.items ≡ sort_by (λ (line : Numbered Place). order_of line.said) sends.items) }
    {
        Ok(Judges {
            net,
            paths: PathLines::open(alloc, &net, paths)?,
            sends: SendLines::open(alloc, sends)?,
            slots: FlowCounts::open(alloc, net.endpoints())?,
            places: 0,
        })
    }

    /// Holds the lines against the next packet of the schedule.
    pub(crate) fn hold(&mut self, place: Place)
        requires src { place.flow.src < endpoints_of self.old.net }
        requires dst { place.flow.dst < endpoints_of self.old.net }
        requires slot { 0 < place.slot }
        requires stands { (held : List Place) × (counted : List Place) × AreBefore (order_of place) held × StandApart held counted self.old }
        ensures stands { (held : List Place) → (counted : List Place) → AreBefore (order_of place) held → StandApart held counted self.old → StandApart (held ++ place ∷ []) counted self.new }
        ensures text { IsSameText self.old self.new }
    {
        self.paths.visit(&self.net, place);
        self.sends.visit(place);
    }

    /// Counts the next packet of the schedule.
    pub(crate) fn count(&mut self, place: Place)
        requires src { place.flow.src < endpoints_of self.old.net }
        requires dst { place.flow.dst < endpoints_of self.old.net }
        requires slot { 0 < place.slot }
        requires number { place.slot < 2 ^ 32 }
        requires stands { (held : List Place) × (counted : List Place) × AreBefore (order_of place) counted × StandApart held counted self.old }
        ensures stands { (held : List Place) → (counted : List Place) → AreBefore (order_of place) counted → StandApart held counted self.old → StandApart held (counted ++ place ∷ []) self.new }
        ensures text { IsSameText self.old self.new }
    {
        self.slots.count(place.flow);
        self.places += 1;
    }
}
