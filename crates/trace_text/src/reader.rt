// A text read as a trace, at once or piece by piece.
ghost use Rattle.std.specs.Prelude.{◌≡◌, ◌++◌, ◌≤◌, ℕ, List, [], Ok, None, length, IfOk, IfErr, OnOk};
ghost use Rattle.trace_text.specs.Trace.{trace_of, IsFaultOf};
ghost use Rattle.trace_text.specs.Valid.{IsTrace};

use crate::mark::{left_behind_mark, without_mark};
use crate::read::read_rest;
use crate::rows::Rows;
use crate::whole_lines::take_whole_lines;
use crate::{Command, Trace, TraceRefused};
use csv::ByteRecord;
use no_memory::NoMemory;
use std::alloc::Global;
use std::mem::swap;

// Rows are taken once so many bytes more are left than twice what no row could be taken of.
const ENOUGH: usize = 4_096;

// Behind so many bytes of which no row could be taken, all others are taken at the end.
const LONG: usize = 65_536;

/// The trace that a text is, or its first faulty row and that row's fault. The rows and the faults in their order are
/// this project's own profile; docs/FORMATS.md has them.
pub fn read_trace(alloc: Global, bytes: &[u8], command: Command) -> Result<Trace, TraceRefused>
    requires { length bytes.now ≤ 67108864 }
    ensures accepted { IfOk result (λ trace. trace_of command bytes.now ≡ Ok trace) }
    ensures valid { IfOk result IsTrace }
    ensures refused { IfErr result (IsFaultOf (trace_of command bytes.now)) }
{
    let rows = Rows::new(alloc)?;
    read_rest(alloc, rows, command, without_mark(bytes))
}

/// A trace that is read from a text which is given piece by piece. It holds no more of the text than a piece and what no row could be
/// taken of yet: a line without its end, or one with another quote than those round a field, and all that stands behind it.
#[derive(Drop)]
pub struct TraceReader {
    alloc: Global,
    command: Command,
    rows: Rows,
    // What no row was taken of.
    left: Vec<u8>,
    // Whether that is the start of the text.
    is_start: bool,
    // How many bytes are to be left before rows are taken.
    enough: usize,
    // Where what is left is moved to.
    spare: Vec<u8>,
    fields: ByteRecord,
    // The first fault, once one is found.
    refused: Option<TraceRefused>,
    ghost more_than_a_mark: { 3 ≤ enough },
}

impl TraceReader {
    ghost use Rattle.trace_text.specs.Reader.{HasRead, MayRead};

    /// A reader that has read nothing.
    pub fn open(alloc: Global, command: Command) -> Result<TraceReader, NoMemory>
        ensures { IfOk result (HasRead command []) }
    {
        Ok(TraceReader {
            alloc,
            command,
            rows: Rows::new(alloc)?,
            left: Vec::new(alloc),
            is_start: true,
            enough: ENOUGH,
            spare: Vec::new(alloc),
            fields: ByteRecord::new(alloc),
            refused: None,
        })
    }

    /// Reads on: takes the piece of the text that stands behind those before. A faulty row is told at the end.
    pub fn take(&mut self, piece: &[u8]) -> Result<(), NoMemory>
        requires { MayRead (length piece.now) self.old }
        ensures { (command : Command) (text : List ℕ) → HasRead command text self.old → OnOk result (HasRead command (text ++ piece.now) self.new) }
    {
        if self.refused.is_some() {
            return Ok(());
        }
        self.left.extend_from_slice(piece)?;
        if self.left.len() < self.enough {
            return Ok(());
        }
        self.take_rows()
    }

    /// The trace that the text is, or its first faulty row and that row's fault.
    pub fn finish(self) -> Result<Trace, TraceRefused>
        requires { MayRead 0 self }
        ensures accepted { (command : Command) (text : List ℕ) → HasRead command text self → IfOk result (λ trace. trace_of command text ≡ Ok trace) }
        ensures valid { IfOk result IsTrace }
        ensures refused { (command : Command) (text : List ℕ) → HasRead command text self → IfErr result (IsFaultOf (trace_of command text)) }
    {
        let TraceReader {
            alloc,
            command,
            rows,
            left,
            is_start,
            refused,
            ..
        } = self;
        if let Some(refused) = refused {
            return Err(refused);
        }
        read_rest(alloc, rows, command, left_behind_mark(is_start, &left))
    }

    // Takes the rows of the whole lines that are left.
    fn take_rows(&mut self) -> Result<(), NoMemory>
        requires may_read { MayRead 0 self.old }
        requires sound { self.old.refused ≡ None }
        requires enough { 3 ≤ length self.old.left.items }
        ensures { (command : Command) (text : List ℕ) → HasRead command text self.old → OnOk result (HasRead command text self.new) }
    {
        let left = left_behind_mark(self.is_start, &self.left);
        match take_whole_lines(&mut self.rows, self.command, left, &mut self.fields) {
            Ok(rest) => {
                self.spare.clear();
                self.spare.extend_from_slice(rest)?;
                swap(&mut self.left, &mut self.spare);
                self.is_start = false;
                self.enough = enough_behind(self.left.len());
                Ok(())
            }
            Err(TraceRefused::Memory) => Err(NoMemory),
            Err(refused) => {
                self.refused = Some(refused);
                Ok(())
            }
        }
    }
}

// So many bytes are to be left before rows are taken again, where so many were left.
fn enough_behind(left: usize) -> usize
    ensures { 3 ≤ result }
{
    if left > LONG {
        return usize::MAX;
    }
    2 * left + ENOUGH
}
