//! What a `batch` line records, and whether it can stand after others.
ghost use Rattle.std.specs.Prelude.{◌≡◌, ◌&&◌, not, is_some};
ghost use Rattle.schedule_audit.specs.Misplaced.{has_wrong_ends, says_nothing};
ghost use Rattle.schedule_audit.specs.Standing.{is_above_last, sum_with};

use greedy_rules::Flow;

/// What a `batch` line records of a flow.
#[derive(Clone, Copy, Debug, PartialEq, Eq)]
pub struct Recorded {
    pub batch: u32,
    pub flow: Flow,
    pub clear: bool,
    pub add: u32,
}

/// Whether a record stands above the last one, by batch, then flow.
pub(crate) fn is_above(last: Option<Recorded>, next: Recorded) -> bool
    ensures { result ≡ is_above_last last next }
{
    match last {
        None => true,
        Some(last) => {
            last.batch < next.batch
                || (last.batch == next.batch
                    && (last.flow.src < next.flow.src
                        || (last.flow.src == next.flow.src && last.flow.dst < next.flow.dst)))
        }
    }
}

/// Whether a flow's endpoints are out of range, or one.
pub(crate) fn has_wrong_ends(endpoints: u16, flow: Flow) -> bool
    ensures { result ≡ has_wrong_ends endpoints flow }
{
    endpoints <= flow.src || endpoints <= flow.dst || flow.src == flow.dst
}

/// Whether a record neither adds nor clears.
pub(crate) fn says_nothing(next: Recorded) -> bool
    ensures { result ≡ says_nothing next }
{
    next.add == 0 && !next.clear
}

/// Whether a record clears a flow without a sum.
pub(crate) fn clears_none(before: Option<u32>, next: Recorded) -> bool
    ensures { result ≡ (next.clear && not (is_some before)) }
{
    next.clear && before.is_none()
}

/// What a flow's entries add since its last clear, this one and those before, if any has the flow.
pub(crate) fn sum_with(before: Option<u32>, next: Recorded) -> u64
    ensures { result ≡ sum_with before next }
{
    match before {
        Some(before) if !next.clear => u64::from(next.add) + u64::from(before),
        _ => u64::from(next.add),
    }
}
