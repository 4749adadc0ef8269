//! What holds of a lane's conditions. Crates above cite these functions' contracts.
ghost use Rattle.arbiter_lane.specs.Laws.{ConditionsSuffice};

use endpoint_history::{lanes_count_slots, the_ledger_holds};

/// Where the callers keep to rounds that go on, count slots before they are told, and count no more than are owed, whatever
/// arrives, the conditions of [`Lane::make_down`](crate::Lane::make_down) and [`Lane::allocated`](crate::Lane::allocated) on
/// slots hold.
pub fn conditions_suffice()
    ensures { ConditionsSuffice }
{
    lanes_count_slots();
    the_ledger_holds();
}
