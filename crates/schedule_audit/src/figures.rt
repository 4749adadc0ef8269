//! The lines that sum a text up, held against its batches and their schedule.
ghost use Rattle.std.specs.Prelude.{◌≡◌, ◌<◌, ℕ, IfOk, List, true, nat_lt, length};
ghost use Rattle.greedy_rules.specs.declared.flows.Flow.{Flow};
ghost use Rattle.greedy_rules.specs.Demands.{HasEachFlowOnce, AreBelow, item_of, need_in};
ghost use Rattle.schedule_audit.specs.FlowNumbers.{flow_number_of};
ghost use Rattle.schedule_audit.specs.Wrong.{Expected, is_bad_flow, is_bad_count};
ghost use Rattle.schedule_audit.specs.Totals.{is_wrong_total, first_total};
ghost use Rattle.schedule_audit.specs.Summed.{AreFigures};

use crate::flow_counts::FlowCounts;
use crate::flow_numbers::FlowNumbers;
use crate::packets::Numbered;
use crate::totals::Total;
use greedy_rules::{DemandList, Flow};
use no_memory::NoMemory;
use std::alloc::Global;

/// Of each flow: what its entries added, how many slots it got, how many before its last clear, and what it still needs; and
/// whether the schedule has more packets than the text has `slot` lines.
#[derive(Drop)]
pub(crate) struct Figures<'a> {
    pub(crate) added: &'a FlowNumbers,
    pub(crate) slots: &'a FlowCounts,
    pub(crate) cleared: &'a FlowNumbers,
    pub(crate) left: &'a FlowNumbers,
    pub(crate) is_short: bool,
}

/// What each flow still needs.
pub(crate) fn needs_of(
    alloc: Global,
    list: &DemandList,
    endpoints: u16,
) -> Result<FlowNumbers, NoMemory>
    requires once { HasEachFlowOnce list.now.items }
    requires below { AreBelow endpoints list.now.items }
    ensures { IfOk result (λ left. (flow : Flow) → flow_number_of left flow ≡ need_in (item_of list.now.items flow)) }
{
    let mut left = FlowNumbers::open(alloc, endpoints)?;
    for at in 0..list.len() {
        let item = list.item(at);
        left.set(item.flow, u64::from(item.need));
    }
    Ok(left)
}

impl Figures<'_> {
    fn is_bad_flow(&self, flow: Flow, demanded: u32, allocated: u32, pending: u32) -> bool
        ensures { (b : ℕ) (expected : Expected) → AreFigures b expected self.now.added.now self.now.slots.now self.now.cleared.now self.now.left.now → result ≡ is_bad_flow expected flow demanded allocated pending }
    {
        let other_sum = u64::from(demanded) != self.added.get(flow);
        let other_slots = u64::from(allocated) != self.slots.get(flow);
        let other_need = u64::from(pending) != self.left.get(flow);
        other_sum | (other_slots | other_need)
    }

    fn is_bad_count(
        &self,
        flow: Flow,
        demanded: u32,
        acknowledged: u32,
        flight: u32,
        pending: u32,
        lost: u32,
    ) -> bool
        requires { (b : ℕ) × (expected : Expected) × AreFigures b expected self.now.added.now self.now.slots.now self.now.cleared.now self.now.left.now }
        ensures { (b : ℕ) (expected : Expected) → AreFigures b expected self.now.added.now self.now.slots.now self.now.cleared.now self.now.left.now → result ≡ is_bad_count b expected flow demanded acknowledged flight pending lost }
    {
        let told = u64::from(acknowledged) + u64::from(flight);
        let since = self.slots.get(flow) - self.cleared.get(flow);
        let other_sum = u64::from(demanded) != told + u64::from(pending);
        let other_pending = u64::from(pending) != self.left.get(flow);
        let other_slots = told + u64::from(lost) != since;
        other_sum | (other_pending | other_slots)
    }

    /// Whether a line is wrong.
    fn is_wrong(&self, total: Total) -> bool
        requires { (b : ℕ) × (expected : Expected) × AreFigures b expected self.now.added.now self.now.slots.now self.now.cleared.now self.now.left.now }
        ensures { (b : ℕ) (expected : Expected) (count : ℕ) → AreFigures b expected self.now.added.now self.now.slots.now self.now.cleared.now self.now.left.now → self.now.is_short ≡ nat_lt count (length expected.places) → result ≡ is_wrong_total b expected count total }
    {
        match total {
            Total::Flow {
                flow,
                demanded,
                allocated,
                pending,
            } => self.is_bad_flow(flow, demanded, allocated, pending),
            Total::Count {
                flow,
                demanded,
                acknowledged,
                flight,
                pending,
                lost,
            } => self.is_bad_count(flow, demanded, acknowledged, flight, pending, lost),
            Total::End => self.is_short,
        }
    }

    /// The first wrong one of some lines.
    pub(crate) fn first_wrong(&self, totals: &[Numbered<Total>]) -> Option<u32>
        requires { (b : ℕ) × (expected : Expected) × AreFigures b expected self.now.added.now self.now.slots.now self.now.cleared.now self.now.left.now }
        ensures { (b : ℕ) (expected : Expected) (count : ℕ) → AreFigures b expected self.now.added.now self.now.slots.now self.now.cleared.now self.now.left.now → self.now.is_short ≡ nat_lt count (length expected.places) → result ≡ first_total (is_wrong_total b expected count) totals.now }
    {
        for total in totals {
            if self.is_wrong(total.said) {
                return Some(total.line);
            }
        }
        None
    }
}
