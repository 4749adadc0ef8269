// How a run ends.
ghost use Rattle.std.specs.Prelude.{◌≡◌, OnOk, OnErr, Err};
ghost use Rattle.std.specs.Io.KnownBytes.{Appends};
ghost use Rattle.fp_edge.specs.Faults.{Rose};
ghost use Rattle.fastpass_run.specs.Failures.{failure_of_read, failure_of_trace, failure_of_stop, failure_of_audit};
ghost use Rattle.fastpass_run.specs.Run.{status_of, note_of};
ghost use Rattle.fastpass_run.specs.declared.outcome.Failure.TheVariants.{Row, Memory, Bad};

use crate::transfer::ReadRefused;
use fp_edge::{Failed, Sink};
use itoa::Buffer;
use no_memory::NoMemory;
use schedule_audit::AuditRefused;
use std::alloc::AllocError;
use text_output::{Stop, write_all};
use trace_text::{Fault, TraceRefused};

/// Why a run ends without its whole text.
#[derive(Clone, Copy, Debug, PartialEq, Eq)]
pub(crate) enum Failure {
    Words,
    Row { row: u32, fault: Fault },
    Read,
    Write,
    Memory,
    Big,
    Bad { line: u32 },
}

impl From<ReadRefused> for Failure {
    ghost from_gives = { λ refused e. e ≡ failure_of_read refused };

    fn from(refused: ReadRefused) -> Self {
        match refused {
            ReadRefused::Failed => Failure::Read,
            ReadRefused::Big => Failure::Big,
            ReadRefused::Memory => Failure::Memory,
        }
    }
}

impl From<TraceRefused> for Failure {
    ghost from_gives = { λ refused e. e ≡ failure_of_trace refused };

    fn from(refused: TraceRefused) -> Self {
        match refused {
            TraceRefused::Row { row, fault } => Failure::Row { row, fault },
            TraceRefused::Memory => Failure::Memory,
        }
    }
}

impl From<Stop> for Failure {
    ghost from_gives = { λ stop e. e ≡ failure_of_stop stop };

    fn from(stop: Stop) -> Self {
        match stop {
            Stop::Write => Failure::Write,
            Stop::Memory => Failure::Memory,
        }
    }
}

impl From<AuditRefused> for Failure {
    ghost from_gives = { λ refused e. e ≡ failure_of_audit refused };

    fn from(refused: AuditRefused) -> Self {
        match refused {
            AuditRefused::Bad { line } => Failure::Bad { line },
            AuditRefused::Memory => Failure::Memory,
        }
    }
}

impl From<AllocError> for Failure {
    ghost from_gives = { λ _ e. e ≡ Memory };

    fn from(_refused: AllocError) -> Self {
        Failure::Memory
    }
}

impl From<NoMemory> for Failure {
    ghost from_gives = { λ _ e. e ≡ Memory };

    fn from(_refused: NoMemory) -> Self {
        Failure::Memory
    }
}

/// The status of a run.
pub(crate) fn status(outcome: Result<(), Failure>) -> u8
    ensures { result ≡ status_of outcome }
{
    match outcome {
        Ok(()) => 0,
        Err(Failure::Words) => 1,
        Err(Failure::Row { .. }) => 2,
        Err(Failure::Read) => 3,
        Err(Failure::Write) => 4,
        Err(Failure::Memory) => 5,
        Err(Failure::Big) => 6,
        Err(Failure::Bad { .. }) => 7,
    }
}

/// Writes the line on how a run ended, if it failed.
pub(crate) fn note<N: Sink>(notes: &mut N, outcome: Result<(), Failure>) -> Result<(), Failed>
    ensures told { OnOk result (Appends (N.held notes.old) (N.held notes.new) (note_of outcome)) }
    ensures failed { OnErr result (Rose (N.faults notes.old) (N.faults notes.new)) }
{
    let line = match outcome {
        Ok(()) => return Ok(()),
        Err(Failure::Row { row, fault }) => return note_row(notes, row, fault),
        Err(Failure::Bad { line }) => return note_bad_line(notes, line),
        Err(Failure::Words) => b"words\n".as_slice(),
        Err(Failure::Read) => b"read\n".as_slice(),
        Err(Failure::Write) => b"write\n".as_slice(),
        Err(Failure::Memory) => b"memory\n".as_slice(),
        Err(Failure::Big) => b"big\n".as_slice(),
    };
    write_all(notes, line)
}

/// Writes the line on a faulty row.
fn note_row<N: Sink>(notes: &mut N, row: u32, fault: Fault) -> Result<(), Failed>
    ensures told { OnOk result (Appends (N.held notes.old) (N.held notes.new) (note_of (Err (Row row fault)))) }
    ensures failed { OnErr result (Rose (N.faults notes.old) (N.faults notes.new)) }
{
    let mut digits = Buffer::new();
    write_all(notes, b"row,")?;
    write_all(notes, digits.format(row).as_bytes())?;
    write_all(notes, b",")?;
    write_all(notes, digits.format(fault.number()).as_bytes())?;
    write_all(notes, b"\n")
}

/// Writes the line on a bad line.
fn note_bad_line<N: Sink>(notes: &mut N, line: u32) -> Result<(), Failed>
    ensures told { OnOk result (Appends (N.held notes.old) (N.held notes.new) (note_of (Err (Bad line)))) }
    ensures failed { OnErr result (Rose (N.faults notes.old) (N.faults notes.new)) }
{
    let mut digits = Buffer::new();
    write_all(notes, b"bad,")?;
    write_all(notes, digits.format(line).as_bytes())?;
    write_all(notes, b"\n")
}
