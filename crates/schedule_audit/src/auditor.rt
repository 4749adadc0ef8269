//! The audit of a text.
ghost use Rattle.std.specs.Prelude.{◌≡◌, ◌≢◌, ◌≤◌, ◌<◌, List, length, Option, None, IfOk};
ghost use Rattle.clos_topology.specs.Network.{endpoints_of};
ghost use Rattle.report_text.specs.declared.line.Line.{Line};
ghost use Rattle.schedule_audit.specs.Reading.{ReadsLines};
ghost use Rattle.schedule_audit.specs.Collecting.{Collects};
ghost use Rattle.schedule_audit.specs.BadLines.{first_misplaced, first_wrong};
ghost use Rattle.schedule_audit.specs.Judging.{AreSmall};
ghost use Rattle.schedule_audit.specs.Audited.{IsVerdict, ShowsACleanSchedule};

use crate::collected::Collected;
use crate::figures::{Figures, needs_of};
use crate::judges::Judges;
use crate::laws::no_misplaced_line_is_recorded;
use crate::rounds::Rounds;
use crate::scanned::scan_text;
use crate::send_lines::earlier;
use crate::text::count_lines;
use clos_topology::Net;
use greedy_rules::{
    every_slot_is_in_range, every_slots_flows_are_of_entries, recorded_batches_may_be_applied,
    schedules_go_on,
};
use no_memory::NoMemory;
use std::alloc::Global;

/// Why a text is refused: its first bad line, counted from 1; or there is no memory.
#[derive(Clone, Copy, Debug, PartialEq, Eq)]
pub enum AuditRefused {
    Bad { line: u32 },
    Memory,
}

/// The first line of a text without misplaced lines that is not what its batches come to.
fn first_wrong(
    alloc: Global,
    collected: Collected,
    net: Net,
    b: u8,
) -> Result<Option<u32>, NoMemory>
    requires b { b ≤ 64 }
    requires collected { (lines : List (Option Line)) × Collects lines collected × AreSmall lines × (first_misplaced (endpoints_of net) lines ≡ None) }
    ensures { IfOk result (λ found. (lines : List (Option Line)) → Collects lines collected → AreSmall lines → first_misplaced (endpoints_of net) lines ≡ None → found ≡ first_wrong net b lines) }
{
    recorded_batches_may_be_applied();
    schedules_go_on();
    every_slot_is_in_range();
    every_slots_flows_are_of_entries();
    let paths = collected.paths.len();
    let rounds = collected.rounds.unwrap_or(0);
    let mut judges = Judges::open(alloc, net, collected.paths, collected.sends)?;
    let mut played = Rounds::open(alloc, &net, collected.records, b)?;
    for round in 0..rounds {
        played.play(alloc, round, b, &mut judges)?;
    }
    let left = needs_of(alloc, played.demand.list(), net.endpoints())?;
    let figures = Figures {
        added: &played.ledger.added,
        slots: &judges.slots,
        cleared: &played.ledger.cleared,
        left: &left,
        is_short: (paths as u64) < judges.places,
    };
    let total = figures.first_wrong(&collected.totals);
    let send = judges.sends.first_missed();
    let path = judges.paths.first_wrong(&net);
    Ok(earlier(path, earlier(send, total)))
}

/// Audits a text of a plan or a replay, whatever trace it was made from, of a network and batches of `b` slots, at most 64: how many
/// lines it has. Bad exactly where a line is bad, with the first one.
pub fn audit(alloc: Global, bytes: &[u8], net: Net, b: u8) -> Result<u32, AuditRefused>
    requires bytes { length bytes.now ≤ 67108864 }
    requires b { b ≤ 64 }
    ensures verdict { (lines : List (Option Line)) × ReadsLines bytes.now lines × IsVerdict net b lines result }
    ensures shows { IfOk result (λ _. (lines : List (Option Line)) × ReadsLines bytes.now lines × ShowsACleanSchedule net b lines) }
{
    no_misplaced_line_is_recorded();
    let Ok(scanned) = scan_text(alloc, bytes, &net) else {
        // Each answer speaks of the text's lines, which their reading gives.
        let _lines = count_lines(bytes);
        return Err(AuditRefused::Memory);
    };
    match scanned.misplaced {
        Some(line) => return Err(AuditRefused::Bad { line }),
        None => {}
    }
    let count = scanned.collected.lines;
    let Ok(wrong) = first_wrong(alloc, scanned.collected, net, b) else {
        return Err(AuditRefused::Memory);
    };
    match wrong {
        Some(line) => Err(AuditRefused::Bad { line }),
        None => Ok(count),
    }
}
