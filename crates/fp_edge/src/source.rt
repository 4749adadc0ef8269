// Where bytes come from.
ghost use Rattle.std.specs.Prelude.{List, ℕ};
ghost use Rattle.std.specs.Io.KnownBytes.{ReadConsumes};
ghost use Rattle.std.specs.declared.option.Option.{Option};
ghost use Rattle.fp_edge.specs.Faults.{HasCause};
ghost use Rattle.fp_edge.specs.Transfers.{AtMostAll, WritesFrontOnly};

/// A read or a write failed, and the object's count of faults rose.
#[derive(Clone, Copy, Debug, PartialEq, Eq)]
pub struct Failed;

/// Bytes that come from outside.
pub trait Source {
    /// The bytes that are left, where the object tells them.
    ghost left: { Self → Option (List ℕ) };

    /// How often the object has failed, up to the greatest u64.
    ghost faults: { Self → ℕ };

    /// Puts the next bytes at the front of `buf` and answers how many. None for a `buf` that isn't empty is the end.
    fn read(&mut self, buf: &mut [u8]) -> Result<usize, Failed>
        ensures bound { AtMostAll result buf.old }
        ensures bytes { ReadConsumes (left self.old) (left self.new) result buf.new }
        ensures rest { WritesFrontOnly buf.old buf.new result }
        ensures cause { HasCause (faults self.old) (faults self.new) result };
}
