//! A law on what the lanes of a desk record.
ghost use Rattle.front_desk.specs.Laws.{EveryWindowRecordsTheSame};

/// How many rounds a window has shows in nothing that is recorded in round 0.
pub fn every_window_records_the_same()
    ensures { EveryWindowRecordsTheSame }
{}
