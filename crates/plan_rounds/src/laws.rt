ghost use Rattle.plan_rounds.specs.Asked.{EveryPlanAddsWhatIsAsked};
ghost use Rattle.plan_rounds.specs.Batches.{EveryPlanIsRecorded};

/// A law over every trace: the batches of its plan are as they are recorded, one for each round.
pub fn every_plan_is_recorded()
    ensures { EveryPlanIsRecorded }
{}

/// A law over every trace: the batches of its plan add to each flow what is asked for of it.
pub fn every_plan_adds_what_is_asked()
    ensures { EveryPlanAddsWhatIsAsked }
{}
