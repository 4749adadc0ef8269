//! A schedule goes by, slot after slot.
ghost use Rattle.std.specs.Prelude.{◌≡◌, ◌<◌, ◌≤◌, ◌+◌, ◌*◌, ◌^◌, ◌++◌, ◌∷◌, [], List, length};
ghost use Rattle.clos_topology.specs.Network.{endpoints_of};
ghost use Rattle.greedy_rules.specs.SlotTable.{flows_from};
ghost use Rattle.schedule_audit.specs.Lines.{Place};
ghost use Rattle.schedule_audit.specs.Wrong.{slot_places_from};
ghost use Rattle.schedule_audit.specs.Judged.{AreBefore};
ghost use Rattle.schedule_audit.specs.Walked.{in_slot, JudgesStand, StandApart, IsSameText, FlowsAreBetween};

use crate::judges::Judges;
use crate::packets::Place;
use greedy_rules::{Flow, SlotTable};

/// Holds the text against the packet of a source in a slot, if it sends one.
fn hold_cell(judges: &mut Judges, slot: u32, src: u16, to: Option<u16>)
    requires slot { 0 < slot }
    requires flows { FlowsAreBetween (endpoints_of judges.old.net) (flows_from src (to ∷ [])) }
    requires stands { (held : List Place) × (counted : List Place) × AreBefore (slot * 65536 + src) held × StandApart held counted judges.old }
    ensures stands { (held : List Place) → (counted : List Place) → AreBefore (slot * 65536 + src) held → StandApart held counted judges.old → StandApart (held ++ in_slot slot (flows_from src (to ∷ []))) counted judges.new }
    ensures text { IsSameText judges.old judges.new }
{
    if let Some(dst) = to {
        let flow = Flow { src, dst };
        judges.hold(Place { slot, flow });
    }
}

/// Holds the text against the packets of a slot, by a row that holds each source's destination.
fn hold_row(judges: &mut Judges, slot: u32, row: &[Option<u16>], endpoints: u16)
    requires slot { 0 < slot }
    requires row { length row.now ≡ endpoints }
    requires flows { FlowsAreBetween (endpoints_of judges.old.net) (flows_from 0 row.now) }
    requires stands { (held : List Place) × (counted : List Place) × AreBefore (slot * 65536) held × StandApart held counted judges.old }
    ensures stands { (held : List Place) → (counted : List Place) → AreBefore (slot * 65536) held → StandApart held counted judges.old → StandApart (held ++ in_slot slot (flows_from 0 row.now)) counted judges.new }
    ensures text { IsSameText judges.old judges.new }
{
    for src in 0..endpoints {
        hold_cell(judges, slot, src, row[src as usize]);
    }
}

/// Counts the packet of a source in a slot, if it sends one.
fn count_cell(judges: &mut Judges, slot: u32, src: u16, to: Option<u16>)
    requires slot { 0 < slot }
    requires flows { FlowsAreBetween (endpoints_of judges.old.net) (flows_from src (to ∷ [])) }
    requires stands { (held : List Place) × (counted : List Place) × AreBefore (slot * 65536 + src) counted × StandApart held counted judges.old }
    ensures stands { (held : List Place) → (counted : List Place) → AreBefore (slot * 65536 + src) counted → StandApart held counted judges.old → StandApart held (counted ++ in_slot slot (flows_from src (to ∷ []))) judges.new }
    ensures text { IsSameText judges.old judges.new }
{
    if let Some(dst) = to {
        let flow = Flow { src, dst };
        judges.count(Place { slot, flow });
    }
}

/// Counts the packets of a slot, by such a row. A loop of its own, so that the next numbers are fetched while one is.
fn count_row(judges: &mut Judges, slot: u32, row: &[Option<u16>], endpoints: u16)
    requires slot { 0 < slot }
    requires row { length row.now ≡ endpoints }
    requires flows { FlowsAreBetween (endpoints_of judges.old.net) (flows_from 0 row.now) }
    requires stands { (held : List Place) × (counted : List Place) × AreBefore (slot * 65536) counted × StandApart held counted judges.old }
    ensures stands { (held : List Place) → (counted : List Place) → AreBefore (slot * 65536) counted → StandApart held counted judges.old → StandApart held (counted ++ in_slot slot (flows_from 0 row.now)) judges.new }
    ensures text { IsSameText judges.old judges.new }
{
    for src in 0..endpoints {
        count_cell(judges, slot, src, row[src as usize]);
    }
}

/// Takes the packets of a slot, by such a row.
fn walk_row(judges: &mut Judges, slot: u32, row: &[Option<u16>], endpoints: u16)
    requires slot { 0 < slot }
    requires row { length row.now ≡ endpoints }
    requires flows { FlowsAreBetween (endpoints_of judges.old.net) (flows_from 0 row.now) }
    requires stands { (visited : List Place) × AreBefore (slot * 65536) visited × JudgesStand visited judges.old }
    ensures stands { (visited : List Place) → AreBefore (slot * 65536) visited → JudgesStand visited judges.old → JudgesStand (visited ++ in_slot slot (flows_from 0 row.now)) judges.new }
    ensures text { IsSameText judges.old judges.new }
{
    hold_row(judges, slot, row, endpoints);
    count_row(judges, slot, row, endpoints);
}

/// Takes the packets of a table of slots.
pub(crate) fn walk(judges: &mut Judges, table: &SlotTable, first_slot: u32, b: u8)
    requires first { 0 < first_slot }
    requires numbers { first_slot + b ≤ 2 ^ 32 }
    requires slots { length table.now.slots ≡ b }
    requires endpoints { table.now.endpoints ≡ endpoints_of judges.old.net }
    requires stands { (visited : List Place) × AreBefore (first_slot * 65536) visited × JudgesStand visited judges.old }
    ensures stands { (visited : List Place) → AreBefore (first_slot * 65536) visited → JudgesStand visited judges.old → JudgesStand (visited ++ slot_places_from first_slot table.now.slots) judges.new }
    ensures text { IsSameText judges.old judges.new }
{
    let _slots = table.slots();
    let endpoints = table.endpoints();
    for offset in 0..b {
        let slot = first_slot + u32::from(offset);
        walk_row(judges, slot, table.row(u16::from(offset)), endpoints);
    }
}
