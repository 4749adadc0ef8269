// Where bytes go.
ghost use Rattle.std.specs.Prelude.{List, ℕ};
ghost use Rattle.std.specs.Io.KnownBytes.{WriteAppends};
ghost use Rattle.std.specs.declared.option.Option.{Option};
ghost use Rattle.fp_edge.specs.Faults.{HasCause};
ghost use Rattle.fp_edge.specs.Transfers.{AtMostAll, TakesSome};

use crate::Failed;

/// Bytes that go outside.
pub trait Sink {
    /// The bytes that were taken, where the object tells them.
    ghost held: { Self → Option (List ℕ) };

    /// How often the object has failed, up to the greatest u64.
    ghost faults: { Self → ℕ };

    /// Takes bytes from the front of `piece`, at least one where there is one, and answers how many.
    fn write(&mut self, piece: &[u8]) -> Result<usize, Failed>
        ensures bound { AtMostAll result piece.now }
        ensures some { TakesSome result piece.now }
        ensures bytes { WriteAppends (held self.old) (held self.new) result piece.now }
        ensures cause { HasCause (faults self.old) (faults self.new) result };
}
