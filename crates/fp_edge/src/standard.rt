// The real outside: a reader and a writer of std. Nothing is promised of the bytes themselves.
ghost use Rattle.std.specs.Prelude.{◌≡◌, ◌≤◌, ◌-◌, ◌^◌, take, None, IfOk, OnErr};
ghost use Rattle.std.specs.Io.KnownBytes.{Appends, ReadConsumes, WriteAppends};
ghost use Rattle.fp_edge.specs.Faults.{HasCause, CountsErrors};
ghost use Rattle.fp_edge.specs.Transfers.{AtMostAll, TakesSome, WritesFrontOnly, GrowsByFront};

use crate::{Failed, Sink, Source};
use std::io::{Read, Write};

// The most bytes that are read at once: so few that their copies stay near the processor.
const PIECE: usize = 16_384;

/// A source over any reader of std. Each error of the reader is a fault.
#[derive(Drop)]
pub struct StdSource<T> {
    inner: T,
    // What a reader does to the rest of its buffer is not known, so it gets this one.
    piece: [u8; PIECE],
    faults: u64,
    ghost counted: { faults ≤ 2 ^ 64 - 1 },
}

impl<T: Read> StdSource<T> {
    /// Takes no memory.
    pub fn new(inner: T) -> StdSource<T>
        ensures told { ⟦<StdSource<T> as Source>⟧.left result ≡ T.remaining inner }
        ensures count { ⟦<StdSource<T> as Source>⟧.faults result ≡ 0 }
    {
        StdSource {
            inner,
            piece: [0; PIECE],
            faults: 0,
        }
    }
}

impl<T: Read> Source for StdSource<T> {
    ghost left = { λ s. T.remaining s.inner };

    ghost faults = { λ s. s.faults };

    fn read(&mut self, buf: &mut [u8]) -> Result<usize, Failed>
        ensures bound { AtMostAll result buf.old }
        ensures bytes { ReadConsumes (⟦<StdSource<T> as Source>⟧.left self.old) (⟦<StdSource<T> as Source>⟧.left self.new) result buf.new }
        ensures rest { WritesFrontOnly buf.old buf.new result }
        ensures cause { HasCause (⟦<StdSource<T> as Source>⟧.faults self.old) (⟦<StdSource<T> as Source>⟧.faults self.new) result }
        ensures counted { CountsErrors (⟦<StdSource<T> as Source>⟧.faults self.old) (⟦<StdSource<T> as Source>⟧.faults self.new) result }
    {
        let room = buf.len().min(PIECE);
        let piece = &mut self.piece[..];
        let front = &mut piece[..room];
        match self.inner.read(front) {
            Ok(n) => {
                let taken = &mut buf[..n];
                taken.copy_from_slice(&front[..n]);
                Ok(n)
            }
            Err(_) => {
                self.faults = self.faults.saturating_add(1);
                Err(Failed)
            }
        }
    }
}

/// A sink over any writer of std, flushed after each write. Each error of a write or a flush is a fault, and so is a
/// write that takes nothing of a piece that isn't empty. It tells no bytes.
#[derive(Drop)]
pub struct StdSink<T> {
    inner: T,
    faults: u64,
    ghost counted: { faults ≤ 2 ^ 64 - 1 },
}

impl<T: Write> StdSink<T> {
    ghost use Rattle.fp_edge.specs.Standard.{writer_of};

    /// Takes no memory.
    pub fn new(inner: T) -> StdSink<T>
        ensures told { ⟦<StdSink<T> as Sink>⟧.held result ≡ None }
        ensures count { ⟦<StdSink<T> as Sink>⟧.faults result ≡ 0 }
        ensures writer { writer_of result ≡ inner }
    {
        StdSink { inner, faults: 0 }
    }
}

// One write and its flush. What it gives to the writer is the front of the piece.
fn write_through<T: Write>(inner: &mut T, piece: &[u8]) -> Result<usize, Failed>
    ensures bound { AtMostAll result piece.now }
    ensures some { TakesSome result piece.now }
    ensures bytes { IfOk result (λ n. Appends (T.contents inner.old) (T.contents inner.new) (take n piece.now)) }
    ensures failed { OnErr result (GrowsByFront (T.contents inner.old) (T.contents inner.new) piece.now) }
{
    let Ok(n) = inner.write(piece) else {
        return Err(Failed);
    };
    if (n == 0 && !piece.is_empty()) || inner.flush().is_err() {
        return Err(Failed);
    }
    Ok(n)
}

impl<T: Write> Sink for StdSink<T> {
    ghost use Rattle.fp_edge.specs.Standard.{writer_of};

    ghost held = { λ _. None };

    ghost faults = { λ s. s.faults };

    fn write(&mut self, piece: &[u8]) -> Result<usize, Failed>
        ensures bound { AtMostAll result piece.now }
        ensures some { TakesSome result piece.now }
        ensures bytes { WriteAppends (⟦<StdSink<T> as Sink>⟧.held self.old) (⟦<StdSink<T> as Sink>⟧.held self.new) result piece.now }
        ensures cause { HasCause (⟦<StdSink<T> as Sink>⟧.faults self.old) (⟦<StdSink<T> as Sink>⟧.faults self.new) result }

        // What is taken is the front of the piece, where the writer tells what it holds.
        ensures written { IfOk result (λ n. Appends (T.contents (writer_of self.old)) (T.contents (writer_of self.new)) (take n piece.now)) }
        ensures failed { OnErr result (GrowsByFront (T.contents (writer_of self.old)) (T.contents (writer_of self.new)) piece.now) }
        ensures counted { CountsErrors (⟦<StdSink<T> as Sink>⟧.faults self.old) (⟦<StdSink<T> as Sink>⟧.faults self.new) result }
    {
        match write_through(&mut self.inner, piece) {
            Ok(n) => Ok(n),
            Err(Failed) => {
                self.faults = self.faults.saturating_add(1);
                Err(Failed)
            }
        }
    }
}
