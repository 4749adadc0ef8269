// A law of every replay's counts.
ghost use Rattle.run_lines.specs.Laws.{EveryCountHasAFlight};

use trace_run::every_flow_is_counted;

/// What a flow of a replay has acknowledged and lost was allocated.
pub fn every_count_has_a_flight()
    ensures { EveryCountHasAFlight }
{
    every_flow_is_counted();
}
