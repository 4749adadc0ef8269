use slot_batches::Piece;

/// The two ends of a worker: the edge that brings it pieces, and the edge into the worker after it.
pub trait Link {
    ghost use Rattle.std.specs.Prelude.{◌≡◌, ℕ, MatchOption, MatchResult};
    ghost use Rattle.ring_core.specs.Ends.{WorkerEnds, one_taken, one_sent};
    ghost use Rattle.ring_core.specs.Streams.{IsPieceAt};

    /// The edges, and the worker's positions on them.
    ghost ends: { Self → WorkerEnds };

    /// It may be used.
    ghost ready: { Self → Type 0 };

    /// The second is the first, but for what its edges hold and the positions.
    ghost stays: { Self → Self → Type 0 };

    /// That many pieces had been sent into the edge before the worker, and all were taken.
    ghost found_empty: { Self → ℕ → Type 0 };

    /// That many pieces had been sent into the edge after the worker, and it held as many as it can.
    ghost found_full: { Self → ℕ → Type 0 };

    /// The next piece of the stream into the worker; None where none is there yet.
    fn pop(&mut self) -> Option<Piece>
        requires { ready self.old }
        ensures ready { ready self.new × stays self.old self.new }
        ensures popped { MatchOption result
            ((ends self.new ≡ ends self.old) × found_empty self.new (ends self.old).taken)
            (λ piece. IsPieceAt (ends self.old).before (ends self.old).taken piece × (ends self.new ≡ one_taken (ends self.old))) };

    /// Hands on the next piece of the stream out of the worker; a refused one comes back.
    fn push(&mut self, piece: Piece) -> Result<(), Piece>
        requires ready { ready self.old }
        requires next { IsPieceAt (ends self.old).after (ends self.old).sent piece }
        ensures ready { ready self.new × stays self.old self.new }
        ensures pushed { MatchResult result
            (λ _. ends self.new ≡ one_sent (ends self.old))
            (λ refused. (refused ≡ piece) × (ends self.new ≡ ends self.old) × found_full self.new (ends self.old).sent) };

    ghost stays_same: { (link : Self) → stays link link };
}
