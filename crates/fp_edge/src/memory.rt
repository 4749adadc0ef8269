// A source and a sink in memory, which say what they hold and fail at the calls that are listed.
ghost use Rattle.std.specs.Prelude.{◌≡◌, ◌+◌, ◌<◌, ◌≤◌, ◌↔◌, Some, [], List, ℕ, length, min, IfOk, IsErr, IsTrue, MatchResult, Contains};
ghost use Rattle.std.specs.Io.KnownBytes.{ReadConsumes, WriteAppends};
ghost use Rattle.fp_edge.specs.Faults.{HasCause};
ghost use Rattle.fp_edge.specs.Transfers.{AtMostAll, TakesSome, WritesFrontOnly};
ghost use Rattle.fp_edge.specs.InMemory.{read_amount, after_read, after_failed_read, write_amount, WriteFails, after_write, after_failed_write};

use crate::{Failed, NoMemory, Sink, Source};
use std::alloc::Global;
use std::marker::Model;

/// A source over bytes in memory.
#[derive(Drop)]
pub struct MemSource {
    bytes: Vec<u8>,
    at: usize,
    most: usize,
    failing: Vec<u32>,
    calls: u64,
    faults: u64,
}

impl Model for MemSource {
    ghost use Rattle.std.specs.Prelude.{◌≤◌, ◌-◌, ◌^◌, drop, length};
    ghost use Rattle.fp_edge.specs.InMemory.{SourceState};

    ghost Value = { SourceState };

    ghost view = { λ s. record {
      left = drop s.at s.bytes.items;
      most = s.most;
      failing = s.failing.items;
      calls = s.calls;
      faults = s.faults;
    } };

    ghost invariant = { λ s. (s.at ≤ length s.bytes.items) × (1 ≤ s.most) × (s.faults ≤ 2 ^ 64 - 1) };
}

impl MemSource {
    /// Gives these bytes, at most `most` a call, and fails at the calls with these numbers, counted from 0.
    pub fn new(bytes: Vec<u8>, most: usize, failing: Vec<u32>) -> MemSource
        requires { 1 ≤ most }
        ensures { result ≡ record { left = bytes.items; most = most; failing = failing.items; calls = 0; faults = 0 } }
    {
        MemSource {
            bytes,
            at: 0,
            most,
            failing,
            calls: 0,
            faults: 0,
        }
    }
}

impl Source for MemSource {
    ghost left = { λ s. Some s.left };

    ghost faults = { λ s. s.faults };

    fn read(&mut self, buf: &mut [u8]) -> Result<usize, Failed>
        ensures bound { AtMostAll result buf.old }
        ensures bytes { ReadConsumes (Some self.old.left) (Some self.new.left) result buf.new }
        ensures rest { WritesFrontOnly buf.old buf.new result }
        ensures cause { HasCause self.old.faults self.new.faults result }

        ensures listed { IsErr result ↔ Contains self.old.failing self.old.calls }
        ensures amount { IfOk result (λ n. n ≡ read_amount self.old (length buf.old)) }
        ensures after { MatchResult result (λ n. self.new ≡ after_read self.old n) (λ _. self.new ≡ after_failed_read self.old) }
    {
        let fails = is_listed(&self.failing, self.calls);
        self.calls = self.calls.saturating_add(1);
        if fails {
            self.faults = self.faults.saturating_add(1);
            return Err(Failed);
        }
        let rest = &self.bytes[self.at..];
        let n = self.most.min(rest.len()).min(buf.len());
        let front = &mut buf[..n];
        front.copy_from_slice(&rest[..n]);
        self.at += n;
        Ok(n)
    }
}

// No number past the greatest u32 is listed, so a count of calls that stands still changes no answer.
fn is_listed(failing: &[u32], call: u64) -> bool
    ensures { IsTrue result ↔ Contains failing.now call }
{
    failing.iter().any(|number| u64::from(*number) == call)
}

/// A sink over memory that is taken beforehand.
#[derive(Drop)]
pub struct MemSink {
    bytes: Vec<u8>,
    room: usize,
    most: usize,
    failing: Vec<u32>,
    calls: u64,
    faults: u64,
}

impl Model for MemSink {
    ghost use Rattle.std.specs.Prelude.{◌≤◌, ◌-◌, ◌^◌, length, vec_capacity};
    ghost use Rattle.fp_edge.specs.InMemory.{SinkState};

    ghost Value = { SinkState };

    ghost view = { λ s. record {
      held = s.bytes.items;
      room = s.room;
      most = s.most;
      failing = s.failing.items;
      calls = s.calls;
      faults = s.faults;
    } };

    ghost invariant = { λ s. (length s.bytes.items ≤ s.room) × (s.room ≤ vec_capacity s.bytes) × (1 ≤ s.most) × (s.faults ≤ 2 ^ 64 - 1) };
}

impl MemSink {
    /// Takes the memory for `room` bytes and holds none. It takes at most `most` a call, and fails at the calls with
    /// these numbers, counted from 0, and where it is full.
    pub fn new(
        alloc: Global,
        room: usize,
        most: usize,
        failing: Vec<u32>,
    ) -> Result<MemSink, NoMemory>
        requires { 1 ≤ most }
        ensures { IfOk result (λ sink. sink ≡ record { held = []; room = room; most = most; failing = failing.items; calls = 0; faults = 0 }) }
    {
        Ok(MemSink {
            bytes: Vec::with_capacity(alloc, room)?,
            room,
            most,
            failing,
            calls: 0,
            faults: 0,
        })
    }

    /// The bytes that it has taken.
    pub fn held(&self) -> &[u8]
        ensures { result.now ≡ self.now.held }
    {
        &self.bytes
    }
}

impl Sink for MemSink {
    ghost held = { λ s. Some s.held };

    ghost faults = { λ s. s.faults };

    fn write(&mut self, piece: &[u8]) -> Result<usize, Failed>
        ensures bound { AtMostAll result piece.now }
        ensures some { TakesSome result piece.now }
        ensures bytes { WriteAppends (Some self.old.held) (Some self.new.held) result piece.now }
        ensures cause { HasCause self.old.faults self.new.faults result }

        ensures fails { IsErr result ↔ WriteFails self.old piece.now }
        ensures amount { IfOk result (λ n. n ≡ write_amount self.old piece.now) }
        ensures after { MatchResult result (λ n. self.new ≡ after_write self.old piece.now n) (λ _. self.new ≡ after_failed_write self.old) }
    {
        let room = self.room - self.bytes.len();
        let fails = is_listed(&self.failing, self.calls) || (room == 0 && !piece.is_empty());
        self.calls = self.calls.saturating_add(1);
        if fails {
            self.faults = self.faults.saturating_add(1);
            return Err(Failed);
        }
        let n = self.most.min(room).min(piece.len());
        match self.bytes.extend_from_slice(&piece[..n]) {
            Ok(()) => Ok(n),
            Err(_) => unreachable!(),
        }
    }
}
