//! What makes a line of the text of a plan or a replay bad, whatever trace it was made from, and laws of it.
//!
//! `schedule_audit` holds a written text against itself. `text.rt` cuts it into lines, of which `front.rt` reads the frequent
//! kinds where they stand; `recorded.rt` and `standing.rt` judge a `batch` line by those before it, with what each flow's entries
//! added (`sums.rt`); `scanned.rt` goes through the lines once, judges each (`misplaced.rt`) and takes what it says, kind by kind
//! (`collected.rt`). `auditor.rt` has `audit`: where no line is misplaced, `rounds.rt` plays the text's batches one after the
//! other by one stage (`demand.rt`), each read off the records (`packets.rt`, `totals.rt` name what lines say). A batch's slots
//! go by at once (`passing.rt`), slot by slot, before `judges.rt`, and are counted: `path_lines.rt` holds the next `slot` line
//! against each packet, with the links that were taken in its slot (`links.rt`), and `send_lines.rt` finds the `sent` line of each
//! among those sorted by slot and source. `ledger.rt` keeps of each flow what was added and how many slots came before its last
//! clear, in tables of `flow_numbers.rt`, and which flows came at all (`seen_flows.rt`); the slots of each flow are counted in
//! `flow_counts.rt`; by these `figures.rt` judges the lines that sum the text up. No schedule is kept.
#![tactic(auto)]

mod auditor;
mod collected;
mod demand;
mod figures;
mod flow_counts;
mod flow_numbers;
mod front;
mod judges;
mod laws;
mod ledger;
mod links;
mod misplaced;
mod packets;
mod passing;
mod path_lines;
mod recorded;
mod rounds;
mod scanned;
mod seen_flows;
mod send_lines;
mod standing;
mod sums;
#[cfg(test)]
mod tests;
mod text;
mod totals;

pub use auditor::{AuditRefused, audit};
pub use laws::{
    a_good_text_has_no_bad_line, a_text_of_batches_has_no_bad_line, counts_begin_at_the_last_clear,
    each_text_has_one_reading, each_text_is_read, no_bad_line_is_its_schedule,
    no_misplaced_line_is_recorded, small_audits,
};
pub use no_memory::NoMemory;
pub use recorded::Recorded;
pub use text::count_lines;
