//! The calls of an edge, which are its nine kinds of step.
ghost use Rattle.std.specs.Prelude.{◌≡◌, ◌+◌, ◌<◌, false, MatchResult, MatchOption, IfOk};
ghost use Rattle.crossbeam_queue.specs.Passes.{view, IsPassOf, ruled_capacity};
ghost use Rattle.crossbeam_queue.specs.Fifo.{Held};
ghost use Rattle.ring_core.specs.Streams.{IsPieceAt};
ghost use Rattle.alloc_pipeline.specs.declared.parcel.Kind.TheVariants.{Whole, Giving, Taking};
ghost use Rattle.alloc_pipeline.specs.Rules.{whole, giving, taking, no_window, named_by, into_of};
ghost use Rattle.alloc_pipeline.specs.Steps.{HeldThen, LeftThen};

use crate::parcel::{Mark, Parcel};
use crate::rule::{EdgePass, EdgeQueue, Gives, Marks, Opens, Takes, Unmarks};
use no_memory::NoMemory;
use slot_batches::Piece;
use std::alloc::Global;
use std::sync::Wait;

/// An edge without pieces, and its whole pass.
pub(crate) fn open(alloc: Global, room: usize) -> Result<(EdgeQueue, EdgePass), NoMemory>
    requires { 0 < room }
    ensures room { IfOk result (λ opened. ruled_capacity opened.0 ≡ room) }
    ensures queue { IfOk result (λ opened. IsPassOf opened.0 opened.1) }
    ensures whole { IfOk result (λ opened. view opened.1 ≡ whole false no_window 0) }
{
    Ok(EdgeQueue::ruled(alloc, room)?)
}

/// Begins the window that the mark names: it goes through the queue.
pub(crate) fn begin<R: Wait>(rt: &R, queue: &EdgeQueue, pass: &mut EdgePass, mark: Mark)
    requires queue { IsPassOf queue.now pass.old }
    requires room { 0 < ruled_capacity queue.now }
    requires whole { ((view pass.old).kind ≡ Whole) × ((view pass.old).marked ≡ false) }
    ensures queue { IsPassOf queue.now pass.new }
    ensures named { view pass.new ≡ whole false (named_by mark) (view pass.old).moved }
{
    let Ok(()) = queue.push_as::<Marks, R>(rt, pass, Parcel::Start(mark)) else {
        unreachable!()
    };
    let Some(_) = queue.pop_as::<Unmarks, R>(rt, pass) else {
        unreachable!()
    };
}

/// Splits the whole pass: it becomes the giving one, and the taking one comes beside it.
pub(crate) fn split(queue: &EdgeQueue, pass: &mut EdgePass) -> EdgePass
    requires queue { IsPassOf queue.now pass.old }
    requires whole { ((view pass.old).kind ≡ Whole) × ((view pass.old).marked ≡ false) }
    ensures queue { IsPassOf queue.now pass.new }
    ensures new_queue { IsPassOf queue.now result }
    ensures giving { view pass.new ≡ giving (view pass.old).window 0 (view pass.old).moved }
    ensures taking { view result ≡ taking (view pass.old).window 0 }
{
    queue.another::<Opens>(pass)
}

/// Pushes the next piece of the stream. A refused one comes back.
pub(crate) fn give<R: Wait>(
    rt: &R,
    queue: &EdgeQueue,
    pass: &mut EdgePass,
    piece: Piece,
) -> Result<(), Piece>
    requires queue { IsPassOf queue.now pass.old }
    requires giving { (view pass.old).kind ≡ Giving }
    requires next { IsPieceAt (into_of (view pass.old).window) (view pass.old).position piece }
    ensures queue { IsPassOf queue.now pass.new }
    ensures given { MatchResult result
        (λ _. view pass.new ≡ giving (view pass.old).window ((view pass.old).position + 1) (view pass.old).moved)
        (λ refused. (refused ≡ piece) × (view pass.new ≡ view pass.old) × Held (ruled_capacity queue.now) (HeldThen (view pass.old))) }
{
    match queue.push_as::<Gives, R>(rt, pass, Parcel::Part(piece)) {
        Ok(()) => Ok(()),
        Err(Parcel::Part(piece)) => Err(piece),
        Err(Parcel::Start(_mark)) => unreachable!(),
    }
}

/// Pops the next piece of the stream.
pub(crate) fn take<R: Wait>(rt: &R, queue: &EdgeQueue, pass: &mut EdgePass) -> Option<Piece>
    requires queue { IsPassOf queue.now pass.old }
    requires taking { (view pass.old).kind ≡ Taking }
    ensures queue { IsPassOf queue.now pass.new }
    ensures taken { MatchOption result
        ((view pass.new ≡ view pass.old) × Held 0 (LeftThen (view pass.old)))
        (λ piece. IsPieceAt (into_of (view pass.old).window) (view pass.old).position piece × (view pass.new ≡ taking (view pass.old).window ((view pass.old).position + 1))) }
{
    match queue.pop_as::<Takes, R>(rt, pass) {
        Some(Parcel::Part(piece)) => Some(piece),
        Some(Parcel::Start(_mark)) => unreachable!(),
        None => None,
    }
}

/// Joins both passes, where all that was sent was taken.
pub(crate) fn join(queue: &EdgeQueue, pass: &mut EdgePass, other: EdgePass)
    requires queue { IsPassOf queue.now pass.old }
    requires other { IsPassOf queue.now other }
    requires giving { (view pass.old).kind ≡ Giving }
    requires taking { (view other).kind ≡ Taking }
    requires even { (view pass.old).position ≡ (view other).position }
    ensures queue { IsPassOf queue.now pass.new }
    ensures whole { view pass.new ≡ whole false (view pass.old).window ((view pass.old).moved + (view pass.old).position) }
{
    queue.absorb::<Opens>(pass, other);
}
