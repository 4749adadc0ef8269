//! The names of what an arbiter answers.

ghost use Rattle.std.specs.Prelude.{◌≡◌, ◌≢◌, ◌≤◌, ℕ, length, Some, IfSome, MatchBool};
ghost use Rattle.report_text.specs.Names.{IsRefusal, IsNoRefusal, IsAnswer, IsEventRefusal, answer_name as name_of, event_name as event_name_of};

/// Whether a refused packet can print this number's name.
fn is_refusal(number: u8) -> bool
    ensures { MatchBool result (IsRefusal number) (IsNoRefusal number) }
{
    matches!(number, 1..=12 | 21..=24 | 26)
}

/// The name that stands for an answer's number.
#[tactic(auto, unfolding(crate::specs::Names::answer_name))]
pub(crate) fn answer_name(number: u8) -> &'static [u8]
    requires { IsAnswer number }
    ensures name { result.now ≡ name_of number }
    ensures short { length result.now ≤ 12 }
{
    match number {
        0 => b"ok",
        1 => b"short",
        2 => b"version",
        3 => b"kind",
        4 => b"endpoint",
        5 => b"count",
        6 => b"order",
        7 => b"selfflow",
        8 => b"toomuch",
        9 => b"mask",
        10 => b"trailing",
        11 => b"epoch",
        12 => b"seq",
        21 => b"unsynced",
        22 => b"oldepoch",
        23 => b"oldseq",
        24 => b"repeat",
        25 => b"notmine",
        _ => b"otherversion",
    }
}

/// The name that stands for the refusal of an event at this place.
#[tactic(auto, unfolding(crate::specs::Names::event_name))]
pub(crate) fn event_name(place: u8) -> &'static [u8]
    requires { IsEventRefusal place }
    ensures name { result.now ≡ event_name_of place }
    ensures short { length result.now ≤ 12 }
{
    match place {
        0 => b"nomessage",
        1 => b"oldboot",
        2 => b"oldlease",
        3 => b"nolease",
        4 => b"stale",
        5 => b"unpublished",
        _ => b"repeat",
    }
}

/// Whether this is the name of a refusal's number.
fn is_named(number: u8, name: &[u8]) -> bool
    ensures { MatchBool result (IsRefusal number × (name.now ≡ name_of number)) (IsRefusal number → name.now ≢ name_of number) }
{
    is_refusal(number) && answer_name(number) == name
}

/// The number of the refusal with this name.
pub(crate) fn number_named(name: &[u8]) -> Option<u8>
    ensures spelled { IfSome result (λ number. IsRefusal number × (name.now ≡ name_of number)) }
    ensures only { (number : ℕ) → IsRefusal number → name.now ≡ name_of number → result ≡ Some number }
{
    for number in 1..27 {
        if is_named(number, name) {
            return Some(number);
        }
    }
    None
}
