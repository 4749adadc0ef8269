//! The mask of an acknowledgement.

ghost use Rattle.std.specs.Prelude.{◌≡◌};
ghost use Rattle.fcp_framing.specs.Refusals.{names_below_one as below_one};

/// Whether a bit of the mask stands for a number below 1: the highest bit stands for the lowest number.
pub(crate) fn names_below_one(high: u32, mask: u128) -> bool
    ensures { result ≡ below_one high mask }
{
    mask != 0 && mask.ilog2() + 1 >= high
}
