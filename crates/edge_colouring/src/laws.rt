ghost use Rattle.edge_colouring.specs.Degrees.{LimitsAreDegrees};
ghost use Rattle.edge_colouring.specs.Colouring.{EveryColouringMakesAMatchingClean, EveryGraphHasAColouring, EveryMatchingHasCleanCores};

/// A law over every slot: where the cores are a colouring of a matching's edges, no two of its packets use one link.
pub fn every_colouring_makes_a_matching_clean()
    ensures { EveryColouringMakesAMatchingClean }
{}

/// A law over every graph of racks (König's theorem): where no rack has more edges on a side than there are cores, there is
/// a colouring.
pub fn every_graph_has_a_colouring()
    ensures { EveryGraphHasAColouring }
{}

/// A law over every slot: where no endpoint sends or receives two of its packets, and no rack has more packets between racks
/// on a side than there are cores, there are cores by which no two use one link.
pub fn every_matching_has_clean_cores()
    ensures { EveryMatchingHasCleanCores }
{}

/// A law over every slot: no rack sends or receives more packets between racks than there are cores exactly where no rack has
/// more edges than that on a side.
pub fn limits_are_degrees()
    ensures { LimitsAreDegrees }
{}
