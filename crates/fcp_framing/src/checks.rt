//! The checks that requests and allocations share.

ghost use Rattle.std.specs.Prelude.{◌≡◌, ◌≤◌, length, find, [], ◌∷◌};
ghost use Rattle.std.specs.Result.{result_err};
ghost use Rattle.fcp_framing.specs.Fields.{mask_end};
ghost use Rattle.fcp_framing.specs.Refusals.{refuses_fields};

use crate::fields::{mask_in, u32_at};
use crate::mask::names_below_one;
use crate::refusal::FrameRefused;

/// Tries the refusals that look at the fields of a packet that ends at `end`.
#[tactic(auto, using(std::proofs::lemmas::Bool::Decides::nat_tests))]
pub(crate) fn check_fields(bytes: &[u8], end: usize) -> Result<(), FrameRefused>
    requires { mask_end bytes.now ≤ length bytes.now }
    ensures { result_err result ≡ find (refuses_fields end bytes.now)
        (FrameRefused.Mask ∷ FrameRefused.Trailing ∷ FrameRefused.Epoch ∷ FrameRefused.Seq ∷ []) }
{
    if names_below_one(u32_at(bytes, 12), mask_in(bytes)) {
        return Err(FrameRefused::Mask);
    }
    if bytes.len() > end {
        return Err(FrameRefused::Trailing);
    }
    if u32_at(bytes, 4) == 0 {
        return Err(FrameRefused::Epoch);
    }
    if u32_at(bytes, 8) == 0 {
        return Err(FrameRefused::Seq);
    }
    Ok(())
}
