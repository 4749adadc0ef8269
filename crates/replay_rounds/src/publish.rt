//! Slots that are published, counted by the lanes of their sources.
ghost use Rattle.std.specs.Prelude.{◌≡◌, ◌<◌, ◌≤◌, ◌+◌, ◌*◌, ◌^◌, ℕ, length};
ghost use Rattle.trace_run.specs.Run.{Setting};
ghost use Rattle.replay_rounds.specs.Standing.{LaneStands};
ghost use Rattle.replay_rounds.specs.Counting.{HasCounted, IsRest, MayCount};
ghost use Rattle.replay_rounds.specs.Publishing.{CountingLaws, WindowIsPublished, EachLaneStands};

use fcp_framing::Told;
use greedy_rules::schedules_go_on;
use lane_rounds::LaneRounds;
use slot_publisher::Publisher;
use trace_run::{ledger_and_rest_agree, runs_go_on};

/// Lets each lane count its slots of the batches that are published, from this one on.
pub(crate) fn count_slots(lanes: &mut [LaneRounds], publisher: &Publisher, from: u32)
    requires lanes { length lanes.old ≡ publisher.now.endpoints }
    requires first { publisher.now.first_batch ≤ from }
    requires last { from ≤ publisher.now.first_batch + publisher.now.count }
    requires published { (setting : Setting) × (collected : ℕ) × WindowIsPublished setting collected publisher.now × EachLaneStands setting collected from lanes.old }
    ensures lanes { length lanes.new ≡ length lanes.old }
    ensures stands { (setting : Setting) (collected : ℕ) →
        WindowIsPublished setting collected publisher.now →
        EachLaneStands setting collected from lanes.old →
        EachLaneStands setting collected (publisher.now.first_batch + publisher.now.count) lanes.new }
{
    for src in 0..publisher.endpoints() {
        count_lane(&mut lanes[src as usize], src, publisher, from);
    }
}

/// Lets the lane of a source count its slots of the batches that are published, from this one on.
pub(crate) fn count_lane(lane: &mut LaneRounds, src: u16, publisher: &Publisher, from: u32)
    requires src { src < publisher.now.endpoints }
    requires first { publisher.now.first_batch ≤ from }
    requires last { from ≤ publisher.now.first_batch + publisher.now.count }
    requires published { (setting : Setting) × (collected : ℕ) × WindowIsPublished setting collected publisher.now × LaneStands setting collected from src lane.old }
    ensures stands { (setting : Setting) (collected : ℕ) →
        WindowIsPublished setting collected publisher.now →
        LaneStands setting collected from src lane.old →
        LaneStands setting collected (publisher.now.first_batch + publisher.now.count) src lane.new }
{
    counting_holds();
    read_ahead(lane, src, publisher, from);
    let end = publisher.first_batch() + u32::from(publisher.count());
    for batch in from..end {
        count_batch(lane, batch, publisher.told(src, batch));
    }
}

/// Reads ahead what the lane keeps of the flows of the slots that it is to count.
fn read_ahead(lane: &mut LaneRounds, src: u16, publisher: &Publisher, from: u32)
    requires src { src < publisher.now.endpoints }
    requires first { publisher.now.first_batch ≤ from }
    requires few { publisher.now.first_batch + publisher.now.count < 2 ^ 32 }
    ensures { lane.new ≡ lane.old }
{
    let end = publisher.first_batch() + u32::from(publisher.count());
    for batch in from..end {
        lane.read_ahead(publisher.told(src, batch));
    }
}

/// Counts the slots that a source is told of a batch.
fn count_batch(lane: &mut LaneRounds, batch: u32, told: &[Told])
    requires rest { (setting : Setting) × (collected : ℕ) × (all : ℕ) × (src : ℕ) × MayCount setting collected all src × IsRest setting collected all src batch lane.old told.now }
    ensures { (setting : Setting) (collected all src : ℕ) →
        MayCount setting collected all src →
        IsRest setting collected all src batch lane.old told.now →
        HasCounted setting collected all (batch * setting.b + setting.b) src lane.new }
{
    counting_holds();
    for one in told {
        lane.allocated(one.dst, batch, 1);
    }
}

/// The laws of schedules and runs that counting rests on.
pub(crate) fn counting_holds()
    ensures { CountingLaws }
{
    schedules_go_on();
    runs_go_on();
    ledger_and_rest_agree();
}
