//! What the lines of a text say, kind by kind.
ghost use Rattle.std.specs.Prelude.{◌≡◌, ◌<◌, ◌≤◌, ◌+◌, List, [], ◌∷◌, ◌++◌, length, Option, IfOk, OnOk, Some, None};
ghost use Rattle.std.specs.List.{cons_option};
ghost use Rattle.report_text.specs.declared.line.Line.{Line};
ghost use Rattle.schedule_audit.specs.Lines.{records, path_of, sent_by_line, ends, first_or_0};
ghost use Rattle.schedule_audit.specs.Totals.{total_in_line};
ghost use Rattle.schedule_audit.specs.Numbered.{numbered_lines};
ghost use Rattle.schedule_audit.specs.Collecting.{CollectsUpTo, AddsLine};

use crate::packets::{Numbered, Path, Place};
use crate::recorded::Recorded;
use crate::totals::Total;
use greedy_rules::Flow;
use no_memory::NoMemory;
use report_text::Line;
use std::alloc::Global;

/// What a text's lines say, each kind in the order of the text, and the rounds of the first `end` line.
#[derive(Drop)]
pub(crate) struct Collected {
    pub(crate) records: Vec<Recorded>,
    pub(crate) paths: Vec<Numbered<Path>>,
    pub(crate) sends: Vec<Numbered<Place>>,
    pub(crate) totals: Vec<Numbered<Total>>,
    pub(crate) rounds: Option<u32>,
    pub(crate) lines: u32,
}

impl Collected {
    /// What no line says.
    pub(crate) fn new(alloc: Global) -> Collected
        ensures collects { (lines : List (Option Line)) → CollectsUpTo lines lines result }
        ensures lines { result.lines ≡ 0 }
    {
        Collected {
            records: Vec::new(alloc),
            paths: Vec::new(alloc),
            sends: Vec::new(alloc),
            totals: Vec::new(alloc),
            rounds: None,
            lines: 0,
        }
    }

    /// Takes the next line.
    pub(crate) fn take(&mut self, line: Option<Line>) -> Result<(), NoMemory>
        requires { self.old.lines + 1 < 4294967296 }
        ensures { OnOk result (AddsLine line self.old self.new) }
    {
        self.lines += 1;
        let number = self.lines;
        match line {
            Some(
                Line::Batch {
                    batch,
                    src,
                    dst,
                    clear,
                    add,
                },
            ) => self.records.push(Recorded {
                batch,
                flow: Flow { src, dst },
                clear,
                add,
            })?,
            Some(
                Line::Slot {
                    slot,
                    src,
                    dst,
                    core,
                },
            ) => {
                let flow = Flow { src, dst };
                let place = Place { slot, flow };
                self.paths.push(Numbered {
                    line: number,
                    said: Path { place, core },
                })?;
            }
            Some(Line::Sent { slot, src, dst }) => {
                let flow = Flow { src, dst };
                self.sends.push(Numbered {
                    line: number,
                    said: Place { slot, flow },
                })?;
            }
            Some(
                Line::Flow {
                    src,
                    dst,
                    demanded,
                    allocated,
                    pending,
                },
            ) => self.totals.push(Numbered {
                line: number,
                said: Total::Flow {
                    flow: Flow { src, dst },
                    demanded,
                    allocated,
                    pending,
                },
            })?,
            Some(
                Line::Count {
                    src,
                    dst,
                    demanded,
                    acknowledged,
                    flight,
                    pending,
                    lost,
                    ..
                },
            ) => self.totals.push(Numbered {
                line: number,
                said: Total::Count {
                    flow: Flow { src, dst },
                    demanded,
                    acknowledged,
                    flight,
                    pending,
                    lost,
                },
            })?,
            Some(Line::End { rounds }) => {
                self.rounds = self.rounds.or(Some(rounds));
                self.totals.push(Numbered {
                    line: number,
                    said: Total::End,
                })?;
            }
            Some(_) => {}
            None => {}
        }
        Ok(())
    }
}
