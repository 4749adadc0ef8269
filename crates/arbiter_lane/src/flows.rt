//! The lines of a lane, one for each destination: what each call makes of all of them.
ghost use Rattle.std.specs.Prelude.{◌≢◌, ◌≤◌, ◌^◌, ◌++◌, OnOk, OnErr, IfSome, Some, slice_get, slice_set, option_to_list, ◌≡◌, ◌<◌, ◌+◌, ℕ, [], ◌∷◌, length, All, false, min, map, if◌then◌else◌};
ghost use Rattle.fcp_framing.specs.declared.packet.Told.{Told as ToldSlot};
ghost use Rattle.fcp_framing.specs.declared.packet.Demand.{Demand as DemandItem};
ghost use Rattle.ack_window.specs.declared.send_window.Decided.{Decided as DecidedNumber};
ghost use Rattle.endpoint_history.specs.Packets.{Telling as TellingOf, slots_to};
ghost use Rattle.arbiter_lane.specs.State.{AreInFlight};
ghost use Rattle.arbiter_lane.specs.Places.{telling_at, decided_with};
ghost use Rattle.arbiter_lane.specs.Lines.{entry_on, Become, LosesSlots, AcknowledgesSlots, RisesTo, DecidesSlots, IsEntered, slots_shown, slots_lost, HasStartedAgain};
ghost use Rattle.std.specs.List.{filter_map};
ghost use Rattle.greedy_rules.specs.Batches.{IsAboveLast};
ghost use Rattle.arbiter_lane.specs.declared.line.LaneLine.{LaneLine as LineOf};
ghost use Rattle.arbiter_lane.specs.Parts.{CanRise, RisenAreMarked, HaveEntriesMarked, entries_on};
ghost use Rattle.endpoint_history.specs.Confirmed.{total_named};

use crate::NoMemory;
use crate::line::LaneLine;
use crate::places::Places;
use ack_window::Decided;
use fcp_framing::{Demand, Told};
use greedy_rules::{Batch, Flow};
use line_marks::Marks;

/// Counts each of the slots as lost, and marks its flow.
pub(crate) fn lose(lines: &mut [LaneLine], risen: &mut Marks, told: &[Told])
    requires few { length lines.old ≤ 256 }
    requires destinations { All (λ (slot : ToldSlot). slot.dst < length lines.old) told.now }
    requires in_flight { AreInFlight (λ dst. slots_to dst told.now) lines.old }
    ensures lost { Become (λ dst. LosesSlots (slots_to dst told.now)) lines.old lines.new }
    ensures marked { RisenAreMarked risen.old lines.old → RisenAreMarked risen.new lines.new }
{
    for slot in told {
        lose_one(lines, risen, *slot);
    }
}

fn lose_one(lines: &mut [LaneLine], risen: &mut Marks, slot: Told)
    requires few { length lines.old ≤ 256 }
    requires destination { slot.dst < length lines.old }
    requires in_flight { AreInFlight (λ dst. slots_to dst (slot ∷ [])) lines.old }
    ensures lost { Become (λ dst. LosesSlots (slots_to dst (slot ∷ []))) lines.old lines.new }
    ensures marked { RisenAreMarked risen.old lines.old → RisenAreMarked risen.new lines.new }
{
    lines[slot.dst as usize].count.lose(1);
    risen.set(slot.dst as usize);
}

/// Counts each of the slots as acknowledged.
pub(crate) fn acknowledge(lines: &mut [LaneLine], told: &[Told])
    requires destinations { All (λ (slot : ToldSlot). slot.dst < length lines.old) told.now }
    requires in_flight { AreInFlight (λ dst. slots_to dst told.now) lines.old }
    ensures { Become (λ dst. AcknowledgesSlots (slots_to dst told.now)) lines.old lines.new }
{
    for slot in told {
        acknowledge_one(lines, *slot);
    }
}

fn acknowledge_one(lines: &mut [LaneLine], slot: Told)
    requires destination { slot.dst < length lines.old }
    requires in_flight { AreInFlight (λ dst. slots_to dst (slot ∷ [])) lines.old }
    ensures { Become (λ dst. AcknowledgesSlots (slots_to dst (slot ∷ []))) lines.old lines.new }
{
    lines[slot.dst as usize].count.acknowledge(1);
}

/// Raises the demand of each flow that is named to the total that is named for it, and marks those that rise.
pub(crate) fn raise(lines: &mut [LaneLine], risen: &mut Marks, demands: &[Demand])
    requires few { length lines.old ≤ 256 }
    requires destinations { All (λ (demand : DemandItem). demand.dst < length lines.old) demands.now }
    ensures raised { Become (λ dst. RisesTo (total_named dst demands.now)) lines.old lines.new }
    ensures marked { RisenAreMarked risen.old lines.old → RisenAreMarked risen.new lines.new }
{
    for demand in demands {
        raise_one(lines, risen, *demand);
    }
}

fn raise_one(lines: &mut [LaneLine], risen: &mut Marks, demand: Demand)
    requires few { length lines.old ≤ 256 }
    requires destination { demand.dst < length lines.old }
    ensures raised { Become (λ dst. RisesTo (total_named dst (demand ∷ []))) lines.old lines.new }
    ensures marked { RisenAreMarked risen.old lines.old → RisenAreMarked risen.new lines.new }
{
    let rises = lines[demand.dst as usize].count.raise(demand.total) > 0;
    if rises {
        risen.set(demand.dst as usize);
    }
}

/// Starts the counts of every flow again.
pub(crate) fn restart(lines: &mut [LaneLine])
    ensures { Become (λ dst. HasStartedAgain) lines.old lines.new }
{
    for at in 0..lines.len() {
        lines[at].restart();
    }
}

/// Counts the slots that lie at the places of the numbers that are decided, as lost or as acknowledged, and marks the flows of
/// those that are lost.
pub(crate) fn decide(
    lines: &mut [LaneLine],
    risen: &mut Marks,
    found: &[Decided<()>],
    places: &Places,
)
    requires few { length lines.old ≤ 256 }
    requires destinations { All (λ (number : DecidedNumber TellingOf). All (λ (slot : ToldSlot). slot.dst < length lines.old) number.content.told) (map (decided_with places.now) found.now) }
    requires in_flight { AreInFlight (λ dst. slots_shown (map (decided_with places.now) found.now) dst + slots_lost (map (decided_with places.now) found.now) dst) lines.old }
    ensures decided { Become (λ dst. DecidesSlots (slots_shown (map (decided_with places.now) found.now) dst) (slots_lost (map (decided_with places.now) found.now) dst)) lines.old lines.new }
    ensures marked { RisenAreMarked risen.old lines.old → RisenAreMarked risen.new lines.new }
{
    for number in found {
        decide_one(lines, risen, number, places);
    }
}

/// Counts the slots that lie at the place of a number that is decided, as [`decide`] does.
pub(crate) fn decide_one(
    lines: &mut [LaneLine],
    risen: &mut Marks,
    number: &Decided<()>,
    places: &Places,
)
    requires few { length lines.old ≤ 256 }
    requires destinations { All (λ (slot : ToldSlot). slot.dst < length lines.old) (telling_at places.now number.now.number).told }
    requires in_flight { AreInFlight (λ dst. slots_to dst (telling_at places.now number.now.number).told) lines.old }
    ensures decided { Become (λ dst. DecidesSlots (slots_shown (decided_with places.now number.now ∷ []) dst) (slots_lost (decided_with places.now number.now ∷ []) dst)) lines.old lines.new }
    ensures marked { RisenAreMarked risen.old lines.old → RisenAreMarked risen.new lines.new }
{
    let told = places.at(number.number).told();
    if number.lost {
        lose(lines, risen, told);
    } else {
        acknowledge(lines, told);
    }
}

/// Records a round of an endpoint's flows: enters those that have risen, or whose demand starts again. After `NoMemory` the lines
/// are as they were.
pub(crate) fn record(
    lines: &mut [LaneLine],
    risen: &mut Marks,
    endpoint: u16,
    resets: bool,
    batch: &mut Batch,
) -> Result<(), NoMemory>
    requires few { length lines.old ≤ 256 }
    requires above { IsAboveLast batch.old.entries (record { src = endpoint; dst = 0 }) }
    requires can_rise { CanRise lines.old }
    requires marked { RisenAreMarked risen.old lines.old }
    ensures entries { OnOk result (batch.new.entries ≡ batch.old.entries ++ entries_on lines.old endpoint resets) }
    ensures limits { batch.new.limits ≡ batch.old.limits }
    ensures entered { OnOk result (Become (λ dst. IsEntered) lines.old lines.new) }
    ensures unchanged { OnErr result (lines.new ≡ lines.old) }
    ensures marked { RisenAreMarked risen.new lines.new }
{
    mark_entries(lines, risen, resets);
    if risen.next_from(0) >= lines.len() {
        return Ok(());
    }
    enter(lines, risen, endpoint, resets, batch)?;
    settle(lines, risen);
    risen.clear_all();
    Ok(())
}

/// Marks every line in a round with a reset, since any flow that a batch has may start again.
fn mark_entries(lines: &[LaneLine], risen: &mut Marks, resets: bool)
    requires few { length lines.now ≤ 256 }
    requires marked { RisenAreMarked risen.old lines.now }
    ensures entries { HaveEntriesMarked risen.new resets lines.now }
    ensures marked { RisenAreMarked risen.new lines.now }
{
    if resets {
        risen.set_all();
    }
}

/// Enters the marked flows of an endpoint one by one, rising by destination. There is none from the endpoint to itself, whose line
/// never rises.
fn enter(
    lines: &[LaneLine],
    risen: &Marks,
    endpoint: u16,
    resets: bool,
    batch: &mut Batch,
) -> Result<(), NoMemory>
    requires few { length lines.now ≤ 256 }
    requires all { HaveEntriesMarked risen.now resets lines.now }
    requires above { IsAboveLast batch.old.entries (record { src = endpoint; dst = 0 }) }
    requires can_rise { CanRise lines.now }
    ensures entries { OnOk result (batch.new.entries ≡ batch.old.entries ++ entries_on lines.now endpoint resets) }
    ensures limits { batch.new.limits ≡ batch.old.limits }
{
    let mut dst = risen.next_from(0);
    while dst < lines.len() {
        let flow = Flow {
            src: endpoint,
            dst: dst as u16,
        };
        enter_one(&lines[dst], flow, resets, batch)?;
        dst = risen.next_from(dst + 1);
    }
    Ok(())
}

/// Enters one flow.
fn enter_one(line: &LaneLine, flow: Flow, resets: bool, batch: &mut Batch) -> Result<(), NoMemory>
    requires above { IsAboveLast batch.old.entries flow }
    requires fits { line.now.count.demanded + line.now.count.lost < 2 ^ 32 }
    requires risen { line.now.entered ≤ line.now.count.demanded + line.now.count.lost }
    ensures entries { OnOk result (batch.new.entries ≡ batch.old.entries ++ option_to_list (entry_on line.now flow resets)) }
    ensures above { OnOk result (IsAboveLast batch.new.entries (record { src = flow.src; dst = flow.dst + 1 })) }
    ensures limits { batch.new.limits ≡ batch.old.limits }
{
    match line.entry(flow, resets) {
        Some(entry) => batch.push(entry),
        None => Ok(()),
    }
}

/// Takes all that the marked flows have risen by for entered. The others have not risen.
fn settle(lines: &mut [LaneLine], risen: &Marks)
    requires few { length lines.old ≤ 256 }
    requires marked { RisenAreMarked risen.now lines.old }
    requires can_rise { CanRise lines.old }
    ensures { Become (λ dst. IsEntered) lines.old lines.new }
{
    let mut at = risen.next_from(0);
    while at < lines.len() {
        lines[at].settle();
        at = risen.next_from(at + 1);
    }
}
