//! Whether a line of a text is misplaced.
ghost use Rattle.std.specs.Prelude.{◌≡◌, List, [], ◌∷◌, ◌++◌, Option, false};
ghost use Rattle.report_text.specs.declared.line.Line.{Line};
ghost use Rattle.schedule_audit.specs.Reading.{ReadsLines};
ghost use Rattle.schedule_audit.specs.Lines.{records, reaches};
ghost use Rattle.schedule_audit.specs.Misplaced.{is_bad_end, has_end, cannot_stand};
ghost use Rattle.schedule_audit.specs.Standing.{SumsStand};

use crate::recorded::Recorded;
use crate::standing::Standing;
use crate::text::first_line;
use greedy_rules::Flow;
use report_text::Line;

/// The most rounds that a text has.
const MOST_ROUNDS: u32 = 100_000;

/// Whether a line is a `batch` line of this batch or a later one.
fn reaches(line: Option<Line>, batch: u32) -> bool
    ensures { result ≡ reaches batch (records (line ∷ [])) }
{
    match line {
        Some(
            Line::Batch {
                batch: recorded,
                ..
            },
        ) => batch <= recorded,
        _ => false,
    }
}

/// Whether a text has a `batch` line of this batch or a later one.
fn has_batch_from(text: &[u8], batch: u32) -> bool
    ensures { (lines : List (Option Line)) → ReadsLines text.now lines → result ≡ reaches batch (records lines) }
{
    let mut rest = text;
    while !rest.is_empty() {
        let (line, later) = first_line(rest);
        if reaches(line, batch) {
            return true;
        }
        rest = later;
    }
    false
}

/// Whether one of these records is of this batch or a later one.
fn has_record_from(recorded: &[Recorded], batch: u32) -> bool
    ensures { result ≡ reaches batch recorded.now }
{
    recorded.iter().any(|record| batch <= record.batch)
}

/// Whether an `end` line has too few or too many rounds for its text, of which these records stand before it and this text behind.
fn is_bad_end(recorded: &[Recorded], later: &[u8], rounds: u32) -> bool
    ensures { (after : List (Option Line)) → ReadsLines later.now after → result ≡ is_bad_end (recorded.now ++ records after) rounds }
{
    rounds < 1
        || rounds > MOST_ROUNDS
        || has_record_from(recorded, rounds)
        || has_batch_from(later, rounds)
}

/// Whether a line cannot stand after those so far, which recorded this, and before this text; else its record is taken.
pub(crate) fn misplaces(
    standing: &mut Standing,
    recorded: &[Recorded],
    later: &[u8],
    line: Option<Line>,
) -> bool
    ensures judged { (whole before after : List (Option Line)) → ReadsLines later.now after → records whole ≡ recorded.now ++ records (line ∷ after) → SumsStand standing.old.last standing.old.sums (records before) →
        result ≡ cannot_stand standing.old.sums.endpoints whole before line }
    ensures stands { (before : List (Option Line)) → SumsStand standing.old.last standing.old.sums (records before) → result ≡ false → SumsStand standing.new.last standing.new.sums (records (line ∷ before)) }
    ensures endpoints { standing.new.sums.endpoints ≡ standing.old.sums.endpoints }
{
    match line {
        Some(
            Line::Batch {
                batch,
                src,
                dst,
                clear,
                add,
            },
        ) => {
            let flow = Flow { src, dst };
            !standing.take(Recorded {
                batch,
                flow,
                clear,
                add,
            })
        }
        Some(Line::End { rounds }) => is_bad_end(recorded, later, rounds),
        Some(Line::Slot { .. }) => false,
        Some(Line::Sent { .. }) => false,
        Some(Line::Refused { .. }) => false,
        Some(Line::Flow { .. }) => false,
        Some(Line::Count { .. }) => false,
        Some(_) => true,
        None => true,
    }
}

/// Whether a line is an `end` line.
pub(crate) fn is_end(line: Option<Line>) -> bool
    ensures { result ≡ has_end (line ∷ []) }
{
    match line {
        Some(Line::End { .. }) => true,
        _ => false,
    }
}
