//! What holds of every chain: crates above cite these functions' contracts.
ghost use Rattle.std.specs.Prelude.{◌≡◌};

use crate::Chain;
use std::marker::Send;

/// A chain may go to another thread where its values may.
pub fn chains_may_go_to_a_thread<T: Copy + Send>(chain: Chain<T>) -> Chain<T>
    ensures { result ≡ chain }
{
    handed_over(chain)
}

fn handed_over<X: Send>(value: X) -> X
    ensures { result ≡ value }
{
    value
}
