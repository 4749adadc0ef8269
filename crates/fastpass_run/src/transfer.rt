ghost use Rattle.std.specs.Prelude.{◌≡◌, ◌≤◌, ◌<◌, ◌+◌, [], length, take, IfOk, OnOk, IsErrOf, IsErr};
ghost use Rattle.std.specs.Io.KnownBytes.{Consumes, IsAtEnd};
ghost use Rattle.fp_edge.specs.Faults.{Rose};
ghost use Rattle.trace_text.specs.Reader.{MayRead};
ghost use Rattle.fastpass_run.specs.Given.{IsGiven};
ghost use Rattle.fastpass_run.specs.Transfer.{Takes, TakesAll, input_limit};
ghost use Rattle.fastpass_run.specs.declared.transfer.ReadRefused.TheVariants.{Memory};

use fp_edge::{Failed, Source};
use no_memory::NoMemory;
use std::alloc::{AllocError, Global};
use trace_text::TraceReader;

/// The most bytes that an input may have.
pub(crate) const LIMIT: usize = 67_108_864;

const _: () = prove!(LIMIT == 67_108_864);

/// The most bytes that are asked for at once: so few that their copies stay near the processor.
const PIECE: usize = 16_384;

/// Why an input was not read to its end.
#[derive(Clone, Copy, Debug, PartialEq, Eq)]
pub(crate) enum ReadRefused {
    Failed,
    Big,
    Memory,
}

impl From<AllocError> for ReadRefused {
    ghost from_gives = { λ _ e. e ≡ Memory };

    fn from(_refused: AllocError) -> Self {
        ReadRefused::Memory
    }
}

impl From<NoMemory> for ReadRefused {
    ghost from_gives = { λ _ e. e ≡ Memory };

    fn from(_refused: NoMemory) -> Self {
        ReadRefused::Memory
    }
}

/// Reads to the end. It takes at most one byte more than the limit, and then answers Big.
pub(crate) fn read_all<S: Source>(alloc: Global, source: &mut S) -> Result<Vec<u8>, ReadRefused>
    ensures read { IfOk result (λ text. (length text.items ≤ input_limit) × Consumes (S.left source.old) (S.left source.new) text.items × IsAtEnd (S.left source.new)) }
    ensures failed { IsErrOf result ReadRefused.Failed → Rose (S.faults source.old) (S.faults source.new) }
    ensures big { IsErrOf result ReadRefused.Big → Takes (S.left source.old) (S.left source.new) (λ n. n ≡ input_limit + 1) }
    ensures not_big { IsErr result → (IsErrOf result ReadRefused.Big → ⊥) → Takes (S.left source.old) (S.left source.new) (λ n. n ≤ input_limit) }
    ensures later { S.faults source.old ≤ S.faults source.new }
{
    let mut text = Vec::new(alloc);
    read_into(source, &mut text)?;
    Ok(text)
}

/// Reads to the end into an empty `text`. Where a read fails, all that was taken is held; where memory is wanting, more was
/// taken than is held.
fn read_into<S: Source>(source: &mut S, text: &mut Vec<u8>) -> Result<(), ReadRefused>
    requires { text.old.items ≡ [] }
    ensures read { OnOk result ((length text.new.items ≤ input_limit) × Consumes (S.left source.old) (S.left source.new) text.new.items × IsAtEnd (S.left source.new)) }
    ensures failed { IsErrOf result ReadRefused.Failed → Rose (S.faults source.old) (S.faults source.new) }
    ensures held { IsErrOf result ReadRefused.Failed → (length text.new.items ≤ input_limit) × Consumes (S.left source.old) (S.left source.new) text.new.items }
    ensures big { IsErrOf result ReadRefused.Big → Takes (S.left source.old) (S.left source.new) (λ n. n ≡ input_limit + 1) }
    ensures memory { IsErrOf result ReadRefused.Memory → Takes (S.left source.old) (S.left source.new) (λ n. (length text.new.items < n) × (n ≤ input_limit)) }
    ensures later { S.faults source.old ≤ S.faults source.new }
{
    let mut piece = [0; PIECE];
    'reads: loop {
        let n = next_piece(source, &mut piece, text.len())?;
        if n == 0 {
            return Ok(());
        }
        text.extend_from_slice(&piece[..n])?;
    }
}

/// Reads to the end, and gives each piece to a reader that has read nothing. It takes at most one byte more than the limit, and then
/// answers Big.
pub(crate) fn give_all<S: Source>(
    source: &mut S,
    reader: &mut TraceReader,
) -> Result<(), ReadRefused>
    requires { MayRead input_limit reader.old }
    ensures read { OnOk result (TakesAll (S.left source.old) (S.left source.new) (IsGiven reader.old reader.new)) }
    ensures failed { IsErrOf result ReadRefused.Failed → Rose (S.faults source.old) (S.faults source.new) }
    ensures big { IsErrOf result ReadRefused.Big → Takes (S.left source.old) (S.left source.new) (λ n. n ≡ input_limit + 1) }
    ensures not_big { IsErr result → (IsErrOf result ReadRefused.Big → ⊥) → Takes (S.left source.old) (S.left source.new) (λ n. n ≤ input_limit) }
    ensures later { S.faults source.old ≤ S.faults source.new }
{
    let mut piece = [0; PIECE];
    let mut taken = 0;
    'gives: loop {
        let n = next_piece(source, &mut piece, taken)?;
        if n == 0 {
            return Ok(());
        }
        reader.take(&piece[..n])?;
        taken += n;
    }
}

/// Reads once into the front of `piece`, where so many bytes were taken before, and answers how many came; 0 is the end. It asks for at
/// most one byte more than the limit, and answers Big where that came.
fn next_piece<S: Source>(
    source: &mut S,
    piece: &mut [u8],
    taken: usize,
) -> Result<usize, ReadRefused>
    requires some { 0 < length piece.old }
    requires within { taken ≤ input_limit }
    ensures read { IfOk result (λ n. (n ≤ length piece.new) × (taken + n ≤ input_limit)) }
    ensures bytes { IfOk result (λ n. Consumes (S.left source.old) (S.left source.new) (take n piece.new)) }
    ensures end { IfOk result (λ n. n ≡ 0 → IsAtEnd (S.left source.new)) }
    ensures failed { IsErrOf result ReadRefused.Failed → Consumes (S.left source.old) (S.left source.new) [] × Rose (S.faults source.old) (S.faults source.new) }
    ensures big { IsErrOf result ReadRefused.Big → Takes (S.left source.old) (S.left source.new) (λ n. taken + n ≡ input_limit + 1) }
    ensures not_memory { ¬ IsErrOf result ReadRefused.Memory }
    ensures later { S.faults source.old ≤ S.faults source.new }
{
    let room = piece.len().min(LIMIT + 1 - taken);
    match source.read(&mut piece[..room]) {
        Ok(n) if n > LIMIT - taken => Err(ReadRefused::Big),
        Ok(n) => Ok(n),
        Err(Failed) => Err(ReadRefused::Failed),
    }
}
