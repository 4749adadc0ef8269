//! The limits of a connection, by its version. Version 2 has its own; every other number counts as version 1.
ghost use Rattle.std.specs.Prelude.{◌≡◌};
ghost use Rattle.ack_window.specs.Versions.{reorder_of, span_of};

/// How far a number may come after a greater one and still be taken.
pub const fn reorder(version: u8) -> u32
    ensures { result ≡ reorder_of version }
{
    if version == 2 { 16 } else { 4 }
}

/// How far a new number may be above the oldest one that is unresolved, and the bits of a mask.
pub const fn span(version: u8) -> u32
    ensures { result ≡ span_of version }
{
    if version == 2 { 128 } else { 64 }
}
