ghost use Rattle.std.specs.Prelude.{◌≡◌, ◌+◌, ◌<◌, ◌^◌, [], ◌∷◌, ◌++◌, length, MatchOption, MatchResult, IfOk};
ghost use Rattle.slot_batches.specs.Pieces.{part_of};
ghost use Rattle.ring_core.specs.Edges.{IsOneSent};

use crate::link::Link;
use greedy_rules::{Batch, DemandList};
use no_memory::NoMemory;
use slot_batches::Piece;
use std::alloc::Global;
use std::collections::VecDeque;
use std::marker::Model;
use std::snapshot::Snapshot;

/// An edge of fixed room: the pieces that were sent and not yet taken, and how many were taken and sent.
#[derive(Drop)]
pub(crate) struct Edge {
    pieces: VecDeque<Piece>,
    taken: u32,
    sent: u32,
}

impl Model for Edge {
    ghost use Rattle.std.specs.Prelude.{map};
    ghost use Rattle.std.specs.VecDeque.{deque_capacity};
    ghost use Rattle.slot_batches.specs.Pieces.{part_of};
    ghost use Rattle.ring_core.specs.States.{EdgeState};

    ghost Value = { EdgeState };

    ghost view = { λ e. record { pieces = map part_of e.pieces.items; taken = e.taken; sent = e.sent; room = deque_capacity e.pieces } };
}

impl Edge {
    /// With room for so many pieces. No later call takes memory.
    pub(crate) fn open(alloc: Global, room: usize) -> Result<Edge, NoMemory>
        ensures empty { IfOk result (λ edge. edge.pieces ≡ []) }
        ensures room { IfOk result (λ edge. edge.room ≡ room) }
        ensures taken { IfOk result (λ edge. edge.taken ≡ 0) }
        ensures sent { IfOk result (λ edge. edge.sent ≡ 0) }
    {
        Ok(Edge {
            pieces: VecDeque::with_capacity(alloc, room)?,
            taken: 0,
            sent: 0,
        })
    }

    /// Its positions begin at 0 again.
    pub(crate) fn restart(&mut self)
        ensures pieces { self.new.pieces ≡ self.old.pieces }
        ensures taken { self.new.taken ≡ 0 }
        ensures sent { self.new.sent ≡ 0 }
        ensures room { self.new.room ≡ self.old.room }
    {
        self.taken = 0;
        self.sent = 0;
    }

    pub(crate) fn take(&mut self) -> Option<Piece>
        requires { self.old.taken + 1 < 2 ^ 32 }
        ensures taken { MatchOption result
            ((self.new.pieces ≡ self.old.pieces) × (self.old.pieces ≡ []) × (self.new.taken ≡ self.old.taken))
            (λ piece. (self.old.pieces ≡ part_of piece ∷ self.new.pieces) × (self.new.taken ≡ self.old.taken + 1)) }
        ensures sent { self.new.sent ≡ self.old.sent }
        ensures room { self.new.room ≡ self.old.room }
    {
        let piece = self.pieces.pop_front()?;
        self.taken += 1;
        Some(piece)
    }

    pub(crate) fn give(&mut self, piece: Piece) -> Result<(), Piece>
        requires { self.old.sent + 1 < 2 ^ 32 }
        ensures given { MatchResult result
            (λ _. (self.new.pieces ≡ self.old.pieces ++ part_of piece ∷ []) × (self.new.sent ≡ self.old.sent + 1) × (length self.old.pieces < self.old.room))
            (λ refused. (refused ≡ piece) × (self.new.pieces ≡ self.old.pieces) × (self.new.sent ≡ self.old.sent) × (length self.old.pieces ≡ self.old.room)) }
        ensures taken { self.new.taken ≡ self.old.taken }
        ensures room { self.new.room ≡ self.old.room }
    {
        if self.pieces.len() >= self.pieces.capacity() {
            return Err(piece);
        }
        self.send(piece);
        Ok(())
    }

    /// Sends a piece, which there is room for.
    pub(crate) fn send(&mut self, piece: Piece)
        requires place { length self.old.pieces < self.old.room }
        requires sent { self.old.sent + 1 < 2 ^ 32 }
        ensures { IsOneSent (part_of piece) self.old self.new }
    {
        self.pieces.push_back_reserved(piece);
        self.sent += 1;
    }

    /// A list of so many pieces goes through it whole.
    pub(crate) fn pass(&mut self, pieces: u32)
        requires taken { self.old.taken + pieces < 2 ^ 32 }
        requires sent { self.old.sent + pieces < 2 ^ 32 }
        ensures pieces { self.new.pieces ≡ self.old.pieces }
        ensures taken { self.new.taken ≡ self.old.taken + pieces }
        ensures sent { self.new.sent ≡ self.old.sent + pieces }
        ensures room { self.new.room ≡ self.old.room }
    {
        self.taken += pieces;
        self.sent += pieces;
    }
}

/// The window that a ring plays, as its list and its batches name it.
#[derive(Clone, Copy)]
pub(crate) struct PlayedWindow<'a> {
    pub(crate) list: &'a Snapshot<DemandList>,
    pub(crate) batches: &'a [Batch],
    pub(crate) first_batch: u32,
    pub(crate) b: u8,
    pub(crate) workers: u16,
}

/// The two ends of a worker over the edges of a ring.
#[derive(Drop)]
pub(crate) struct ListLink<'a> {
    pub(crate) window: PlayedWindow<'a>,
    pub(crate) edges: &'a mut [Edge],
    pub(crate) before: usize,
    pub(crate) after: usize,
}

impl<'a> Link for ListLink<'a> {
    ghost use Rattle.std.specs.Prelude.{◌≡◌, ◌<◌, length, refl};
    ghost use Rattle.ring_core.specs.Edges.{AllHold, StreamsAreShort, OthersStay, IsFoundEmpty, IsFoundFull, ends_between};
    ghost use Rattle.ring_core.specs.Played.{window_named};

    ghost ends = { λ l. ends_between (window_named l.window) l.edges.now l.before l.after };

    ghost ready = { λ l. (l.before < length l.edges.now) × (l.after < length l.edges.now) × StreamsAreShort (window_named l.window) × AllHold (window_named l.window) l.edges.now };

    ghost stays = { λ l m. (m.edges.ghost_name ≡ l.edges.ghost_name) × (window_named m.window ≡ window_named l.window) × (m.before ≡ l.before) × (m.after ≡ l.after) × OthersStay l.before l.after l.edges.now m.edges.now };

    ghost found_empty = { λ l at. IsFoundEmpty l.edges.now l.before at };

    ghost found_full = { λ l at. IsFoundFull l.edges.now l.after at };

    fn pop(&mut self) -> Option<Piece> {
        let before = self.before;
        self.edges[before].take()
    }

    fn push(&mut self, piece: Piece) -> Result<(), Piece> {
        let after = self.after;
        self.edges[after].give(piece)
    }

    ghost stays_same = { λ link. (refl, refl, refl, refl, record { count = refl; taken = λ number other. refl; sent = λ number other. refl; rooms = λ number. refl }) };
}
