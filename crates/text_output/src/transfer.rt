ghost use Rattle.std.specs.Prelude.{◌≤◌, OnOk, OnErr};
ghost use Rattle.std.specs.Io.KnownBytes.{Appends};
ghost use Rattle.fp_edge.specs.Faults.{Rose};
ghost use Rattle.text_output.specs.Transfer.{AppendsFront};

use fp_edge::{Failed, Sink};

/// Writes the whole piece; where the sink fails, its front is written.
pub fn write_all<K: Sink>(sink: &mut K, piece: &[u8]) -> Result<(), Failed>
    ensures written { OnOk result (Appends (K.held sink.old) (K.held sink.new) piece.now) }
    ensures front { OnErr result (AppendsFront (K.held sink.old) (K.held sink.new) piece.now) }
    ensures failed { OnErr result (Rose (K.faults sink.old) (K.faults sink.new)) }
    ensures later { K.faults sink.old ≤ K.faults sink.new }
{
    let mut rest = piece;
    while !rest.is_empty() {
        let n = sink.write(rest)?;
        rest = &rest[n..];
    }
    Ok(())
}
