ghost use Rattle.clos_topology.specs.Examples.{NetworksAndRefusals, LinksBetweenRacksAndWithinOne, EdgesOfASlot};

/// Small networks, which the definitions compute.
pub fn small_networks()
    ensures networks { NetworksAndRefusals }
    ensures links { LinksBetweenRacksAndWithinOne }
    ensures edges { EdgesOfASlot }
{}
