ghost use Rattle.std.specs.Prelude.{◌≡◌, ◌<◌, ◌*◌, length};
ghost use Rattle.greedy_rules.specs.Demands.{HasEachFlowOnce, AreBelow};
ghost use Rattle.window_allocation.specs.Needs.{Needs, place_of};

use greedy_rules::{DemandList, Flow};

/// Writes the need of each flow in the list into the table, by source and then destination.
pub(crate) fn write_needs(list: &DemandList, endpoints: u16, needs: &mut [u32])
    requires once { HasEachFlowOnce list.now.items }
    requires below { AreBelow endpoints list.now.items }
    requires long { length needs.old ≡ endpoints * endpoints }
    ensures { Needs endpoints list.now.items needs.new }
{
    needs.fill(0);
    for at in 0..list.len() {
        let item = list.item(at);
        needs[place(endpoints, item.flow)] = item.need;
    }
}

/// The place of a flow in a table of a number for each flow.
pub fn place(endpoints: u16, flow: Flow) -> usize
    requires src { flow.src < endpoints }
    requires dst { flow.dst < endpoints }
    ensures place { result ≡ place_of endpoints flow.src flow.dst }
    ensures within { result < endpoints * endpoints }
{
    flow.src as usize * endpoints as usize + flow.dst as usize
}
