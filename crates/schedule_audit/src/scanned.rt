//! A text, read once: what its lines say, and the first that is misplaced.
ghost use Rattle.std.specs.Prelude.{◌≡◌, ◌<◌, List, length, Option, None, IfOk};
ghost use Rattle.clos_topology.specs.Network.{endpoints_of};
ghost use Rattle.report_text.specs.declared.line.Line.{Line};
ghost use Rattle.schedule_audit.specs.Reading.{ReadsLines};
ghost use Rattle.schedule_audit.specs.BadLines.{first_misplaced};
ghost use Rattle.schedule_audit.specs.Collecting.{Collects};

use crate::collected::Collected;
use crate::misplaced::{is_end, misplaces};
use crate::standing::Standing;
use crate::text::{count_lines, first_line};
use clos_topology::Net;
use no_memory::NoMemory;
use std::alloc::Global;

/// What the lines of a text say up to the first misplaced one, and its number, counted from 1: that of the line after the last
/// where no `end` line is there.
#[derive(Drop)]
pub(crate) struct Scanned {
    pub(crate) collected: Collected,
    pub(crate) misplaced: Option<u32>,
}

/// Reads a text of a network's endpoints.
pub(crate) fn scan_text(alloc: Global, text: &[u8], net: &Net) -> Result<Scanned, NoMemory>
    requires { length text.now < 4294967295 }
    ensures misplaced { IfOk result (λ scanned. (lines : List (Option Line)) → ReadsLines text.now lines → scanned.misplaced ≡ first_misplaced (endpoints_of net.now) lines) }
    ensures collected { IfOk result (λ scanned. scanned.misplaced ≡ None → (lines : List (Option Line)) → ReadsLines text.now lines → Collects lines scanned.collected) }
    ensures lines { IfOk result (λ scanned. (lines : List (Option Line)) × ReadsLines text.now lines) }
{
    let mut standing = Standing::open(alloc, net.endpoints())?;
    let mut collected = Collected::new(alloc);
    let mut ended = false;
    let mut rest = text;
    while !rest.is_empty() {
        let (line, later) = first_line(rest);
        if ended || misplaces(&mut standing, &collected.records, later, line) {
            // A text has the lines that its reading gives, so the others are read too.
            let _others = count_lines(rest);
            let misplaced = Some(collected.lines + 1);
            return Ok(Scanned {
                collected,
                misplaced,
            });
        }
        ended = is_end(line);
        collected.take(line)?;
        rest = later;
    }
    let misplaced = if ended {
        None
    } else {
        Some(collected.lines + 1)
    };
    Ok(Scanned {
        collected,
        misplaced,
    })
}
