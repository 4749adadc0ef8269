ghost use Rattle.list_facts.specs.Examples.{TiesStayInOrder, TheLeastComesFirst};

/// Small sorted lists, which the definition computes.
pub fn small_sorts()
    ensures least { TheLeastComesFirst }
    ensures ties { TiesStayInOrder }
{}
