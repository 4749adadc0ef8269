//! The rule of an edge, and what its steps tell.
use crate::parcel::{Parcel, View};
use crossbeam_queue::protocol::{Join, Lesson, Outcome, Protocol, Split};
use crossbeam_queue::{Pass, RuledArrayQueue};

pub struct Rule;

impl Protocol<Parcel, View> for Rule {
    ghost use Rattle.std.specs.Prelude.{false};
    ghost use Rattle.alloc_pipeline.specs.Rules.{Kept, whole, no_window};

    ghost holds = { Kept };

    ghost first = { whole false no_window 0 };
}

/// The start mark is pushed.
pub struct Marks;

impl Outcome<Parcel, View> for Marks {
    ghost use Rattle.alloc_pipeline.specs.Steps.{Marked};

    ghost then = { Marked };
}

impl Lesson<Parcel, View> for Marks {
    ghost use Rattle.std.specs.Prelude.{◌≡◌, []};

    ghost fact = { λ v items. items ≡ [] };
}

/// The start mark is popped.
pub struct Unmarks;

impl Outcome<Parcel, View> for Unmarks {
    ghost use Rattle.alloc_pipeline.specs.Steps.{Unmarked};

    ghost then = { Unmarked };
}

impl Lesson<Parcel, View> for Unmarks {
    ghost use Rattle.std.specs.Prelude.{◌≡◌, length};

    ghost fact = { λ v items. length items ≡ 1 };
}

/// A whole pass becomes a giving and a taking one, and these come together again.
pub struct Opens;

impl Split<View> for Opens {
    ghost use Rattle.alloc_pipeline.specs.Rules.{giving, taking};

    ghost left = { λ v. giving v.window 0 v.moved };

    ghost right = { λ v. taking v.window 0 };
}

impl Join<View> for Opens {
    ghost use Rattle.std.specs.Prelude.{false, ◌+◌};
    ghost use Rattle.alloc_pipeline.specs.Rules.{whole, spent};

    ghost both = { λ v u. whole false v.window (v.moved + v.position) };

    ghost spent = { spent };
}

pub struct Gives;

impl Outcome<Parcel, View> for Gives {
    ghost use Rattle.alloc_pipeline.specs.Steps.{Given};

    ghost then = { Given };
}

impl Lesson<Parcel, View> for Gives {
    ghost use Rattle.alloc_pipeline.specs.Steps.{HeldThen};

    ghost fact = { HeldThen };
}

pub struct Takes;

impl Outcome<Parcel, View> for Takes {
    ghost use Rattle.alloc_pipeline.specs.Steps.{Taken};

    ghost then = { Taken };
}

impl Lesson<Parcel, View> for Takes {
    ghost use Rattle.alloc_pipeline.specs.Steps.{LeftThen};

    ghost fact = { LeftThen };
}

pub type EdgeQueue = RuledArrayQueue<Parcel, View, Rule>;

pub type EdgePass = Pass<Parcel, View>;
