ghost use Rattle.path_workers.specs.Coloured.{EveryNamedCoreIsBelow};

/// A law over any slot: where its packets have their cores, and no other source has one, each core named is one of the net's.
pub fn every_named_core_is_below()
    ensures { EveryNamedCoreIsBelow }
{}
