//! What an agent keeps of each flow.
ghost use Rattle.std.specs.Prelude.{◌≡◌, ◌<◌, ◌≤◌, ◌+◌, ◌^◌, ◌==◌, ◌++◌, ◌⊎◌, false, List, [], ◌∷◌, ℕ, All, length, count_by, nat_lt, if◌then◌else◌};
ghost use Rattle.endpoint_history.specs.Packets.{slots_to};
ghost use Rattle.endpoint_history.specs.Sending.{Slot, sent_of};
ghost use Rattle.line_marks.specs.Places.{is_marked};
ghost use Rattle.endpoint_agent.specs.State.{line_at, UnconfirmedAreMarked};
ghost use Rattle.endpoint_agent.specs.Lines.{slots_sent, with_missed, with_sent, unconfirmed_in, slots_from_first, left_in};

use arrayvec::ArrayVec;
use fcp_framing::{Demand, Told};
use line_marks::Marks;

/// A slot in which the endpoint sends, and where to.
#[derive(Clone, Copy, Debug, Default, PartialEq, Eq)]
pub struct Sent {
    pub slot: u32,
    pub dst: u16,
}

/// The slots of one flow: asked for, sent in and missed; and the first request that may carry their total, 0 where it is 0.
/// Clauses see these of an [`Agent`](crate::Agent).
#[derive(Clone, Copy, Debug, Default)]
pub struct FlowLine {
    pub asked: u32,
    pub sent: u32,
    pub missed: u32,
    pub carried_from: u32,
}

/// Appends every flow whose total no request up to `acknowledged` carries. Only marked flows are looked at, and those that are
/// confirmed by now lose their mark.
pub(crate) fn name_unconfirmed(
    lines: &[FlowLine],
    acknowledged: u32,
    unconfirmed: &mut Marks,
    demands: &mut ArrayVec<Demand, 255>,
)
    requires empty { demands.old.items ≡ [] }
    requires most { length lines.now ≤ 256 }
    requires totals { All (λ line. line.asked + line.missed ≤ 200000000) lines.now }
    requires own { (me : ℕ) × (me < length lines.now) × ((line_at lines.now me).carried_from ≡ 0) }
    requires marked { UnconfirmedAreMarked acknowledged unconfirmed.old lines.now }
    ensures named { demands.new.items ≡ unconfirmed_in acknowledged (length lines.now) lines.now }
    ensures marked { UnconfirmedAreMarked acknowledged unconfirmed.new lines.now }
{
    let mut dst = unconfirmed.next_from(0);
    while dst < lines.len() {
        name_flow(dst, &lines[dst], acknowledged, unconfirmed, demands);
        dst = unconfirmed.next_from(dst + 1);
    }
}

/// Appends the flow where its total is not confirmed, and takes its mark where it is.
fn name_flow(
    dst: usize,
    line: &FlowLine,
    acknowledged: u32,
    unconfirmed: &mut Marks,
    demands: &mut ArrayVec<Demand, 255>,
)
    requires destination { dst < 256 }
    requires total { line.now.asked + line.now.missed ≤ 200000000 }
    requires room { acknowledged < line.now.carried_from → length demands.old.items < 255 }
    ensures named { demands.new.items ≡ demands.old.items ++ (if nat_lt acknowledged line.now.carried_from
        then record { dst = dst; total = line.now.asked + line.now.missed } ∷ [] else []) }
    ensures marked { (place : ℕ) → is_marked unconfirmed.new place ≡ false →
        (is_marked unconfirmed.old place ≡ false) ⊎ ((place ≡ dst) × (line.now.carried_from ≤ acknowledged)) }
{
    if acknowledged < line.carried_from {
        demands.push(Demand {
            dst: dst as u16,
            total: line.asked + line.missed,
        });
    } else {
        unconfirmed.clear(dst);
    }
}

/// Marks the flow of each slot.
pub(crate) fn mark_all(unconfirmed: &mut Marks, told: &[Told])
    requires { All (λ t. t.dst < 256) told.now }
    ensures { (dst : ℕ) → is_marked unconfirmed.new dst ≡ false → (is_marked unconfirmed.old dst ≡ false) × (slots_to dst told.now ≡ 0) }
{
    for slot in told {
        unconfirmed.set(slot.dst as usize);
    }
}

/// Counts each slot as missed. The next request is the first that may carry the totals.
pub(crate) fn miss_all(lines: &mut [FlowLine], told: &[Told], next: u32)
    requires destinations { All (λ t. t.dst < length lines.old) told.now }
    requires room { All (λ line. line.missed + length told.now < 2 ^ 32) lines.old }
    ensures length { length lines.new ≡ length lines.old }
    ensures missed { (dst : ℕ) → line_at lines.new dst ≡ with_missed next (slots_to dst told.now) (line_at lines.old dst) }
{
    for slot in told {
        let line = &mut lines[slot.dst as usize];
        line.missed += 1;
        line.carried_from = next;
    }
}

/// Sends in each slot whose flow has more slots asked for than were sent in.
pub(crate) fn send_all(
    lines: &mut [FlowLine],
    told: &[Told],
    first_slot: u32,
    into: &mut ArrayVec<Sent, 64>,
)
    requires destinations { All (λ t. t.dst < length lines.old) told.now }
    requires slots { first_slot + 256 ≤ 2 ^ 32 }
    requires room { length into.old.items + length told.now ≤ 64 }
    ensures length { length lines.new ≡ length lines.old }
    ensures sent { slots_sent into.new.items ≡ slots_sent into.old.items ++ sent_of (left_in lines.old) (slots_from_first first_slot told.now) }
    ensures counted { (dst : ℕ) → line_at lines.new dst
        ≡ with_sent (count_by (λ (s : Slot). s.dst == dst) (sent_of (left_in lines.old) (slots_from_first first_slot told.now))) (line_at lines.old dst) }
{
    for slot in told {
        send_one(
            &mut lines[slot.dst as usize],
            first_slot + u32::from(slot.offset),
            slot.dst,
            into,
        );
    }
}

/// Sends in the slot where more slots are asked for than were sent in.
fn send_one(line: &mut FlowLine, slot: u32, dst: u16, into: &mut ArrayVec<Sent, 64>)
    requires room { length into.old.items < 64 }
    ensures sent { into.new.items ≡ into.old.items ++ (if nat_lt line.old.sent line.old.asked then record { slot = slot; dst = dst } ∷ [] else []) }
    ensures line { line.new ≡ with_sent (if nat_lt line.old.sent line.old.asked then 1 else 0) line.old }
{
    if line.sent < line.asked {
        line.sent += 1;
        into.push(Sent { slot, dst });
    }
}
