//! The numbers of refusals.
ghost use Rattle.std.specs.Prelude.{◌≡◌};
ghost use Rattle.lane_rounds.specs.Refused.{up_refusal_number};

use arbiter_lane::UpRefused;

/// The number under which a refusal is told: 1 to 12 for bytes that spell no packet, 21 to 26 for the others.
pub(crate) fn number_of(refusal: UpRefused) -> u8
    ensures { result ≡ up_refusal_number refusal }
{
    match refusal {
        UpRefused::Frame(frame) => frame.number(),
        UpRefused::Unsynced => 21,
        UpRefused::OldEpoch => 22,
        UpRefused::OldSeq => 23,
        UpRefused::Repeat => 24,
        UpRefused::NotMine => 25,
        UpRefused::OtherVersion => 26,
    }
}
