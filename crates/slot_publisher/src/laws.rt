ghost use Rattle.slot_publisher.specs.Examples.{BothSlotsAreTold, TheSecondSlotIsTold, NothingIsTold};

/// A small window, of which the definitions compute what is told.
pub fn small_window()
    ensures both { BothSlotsAreTold }
    ensures second { TheSecondSlotIsTold }
    ensures nothing { NothingIsTold }
{}
