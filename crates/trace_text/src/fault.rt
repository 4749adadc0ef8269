ghost use Rattle.std.specs.Prelude.{◌≡◌};
ghost use Rattle.trace_text.specs.FaultNumbers.{fault_number};

use no_memory::NoMemory;

/// Why a row is no row of a trace.
#[derive(Clone, Copy, Debug, PartialEq, Eq)]
pub enum Fault {
    NoNet,
    Kind,
    Fields,
    Number,
    Range,
    SelfFlow,
    Order,
    Sum,
    NoEnd,
    NotHere,
    TwoFates,
}

impl Fault {
    /// The number by which a program names the fault, from 1 to 11.
    pub fn number(self) -> u8
        ensures { result ≡ fault_number self }
    {
        match self {
            Fault::NoNet => 1,
            Fault::Kind => 2,
            Fault::Fields => 3,
            Fault::Number => 4,
            Fault::Range => 5,
            Fault::SelfFlow => 6,
            Fault::Order => 7,
            Fault::Sum => 8,
            Fault::NoEnd => 9,
            Fault::NotHere => 10,
            Fault::TwoFates => 11,
        }
    }
}

/// Why a text was not read: its first faulty row, counted from 1, or want of memory.
#[derive(Clone, Copy, Debug, PartialEq, Eq)]
pub enum TraceRefused {
    Row { row: u32, fault: Fault },
    Memory,
}

impl From<NoMemory> for TraceRefused {
    ghost use Rattle.trace_text.specs.declared.fault.TraceRefused.TheVariants.{Memory};

    ghost from_gives = { λ _ e. e ≡ Memory };

    fn from(_refused: NoMemory) -> TraceRefused {
        TraceRefused::Memory
    }
}
