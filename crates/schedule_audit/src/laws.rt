//! Laws of audits.
ghost use Rattle.schedule_audit.specs.Counts.{SlotsBeginAtTheLastClear};
ghost use Rattle.schedule_audit.specs.Examples.{WorkedAudits};
ghost use Rattle.schedule_audit.specs.Laws.{AGoodTextHasNoBadLine};
ghost use Rattle.schedule_audit.specs.ReadLaws.{EachTextHasOneReading, EachTextIsRead};
ghost use Rattle.schedule_audit.specs.Shown.{NoBadLineIsItsSchedule, NoMisplacedLineIsRecorded, NoMisplacedLineMakesMatchings};
ghost use Rattle.schedule_audit.specs.Texts.{ATextOfBatchesHasNoBadLine};

use greedy_rules::{every_recorded_slot, every_slots_flows_are_of_entries, schedules_go_on};

/// Worked audits, which the definitions compute.
pub fn small_audits()
    ensures { WorkedAudits }
{}

/// A text whose lines are good one by one has no bad line.
pub fn a_good_text_has_no_bad_line()
    ensures { AGoodTextHasNoBadLine }
{}

/// A text of recorded batches, with their schedule on clean paths, sends in it and the counts that they come to, has no bad
/// line.
pub fn a_text_of_batches_has_no_bad_line()
    ensures { ATextOfBatchesHasNoBadLine }
{}

/// Where a text has no bad line, its `slot` lines are the schedule of its `batch` lines, on clean paths.
pub fn no_bad_line_is_its_schedule()
    ensures { NoBadLineIsItsSchedule }
{}

/// Where no line of a text is misplaced, its `batch` lines give recorded batches, and each slot of their schedule is a matching
/// within the limits of the racks that no waiting demand could join (the SIGCOMM 2014 Fastpass paper).
pub fn no_misplaced_line_is_recorded()
    ensures batches { NoMisplacedLineIsRecorded }
    ensures slots { NoMisplacedLineMakesMatchings }
{
    every_recorded_slot();
}

/// The slots of a flow since its last clear are those from the batch on that cleared it last, or from any batch on before
/// which no batch has the flow.
pub fn counts_begin_at_the_last_clear()
    ensures { SlotsBeginAtTheLastClear }
{
    schedules_go_on();
    every_slots_flows_are_of_entries();
}

/// A text is read as one list of lines.
pub fn each_text_has_one_reading()
    ensures { EachTextHasOneReading }
{}

/// A written text is read as the lines that it was written from.
pub fn each_text_is_read()
    ensures { EachTextIsRead }
{}
