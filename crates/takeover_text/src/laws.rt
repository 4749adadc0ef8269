ghost use Rattle.takeover_text.specs.Examples.{ANodeTakesOver, AGrantOfAnEarlierBootIsRefused};

/// Worked takeovers, which the definitions compute.
pub fn small_takeovers()
    ensures takes_over { ANodeTakesOver }
    ensures earlier_boot { AGrantOfAnEarlierBootIsRefused }
{}
