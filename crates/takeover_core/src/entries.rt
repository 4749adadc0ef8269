ghost use Rattle.std.specs.Prelude.{◌≡◌, ◌<◌, ◌≤◌, ◌+◌, ◌++◌, [], ◌∷◌, All, IsTrue, OnOk, IfOk, ℕ, filter_map};
ghost use Rattle.std.specs.List.{cons_option, range_with_len};
ghost use Rattle.greedy_rules.specs.Flows.{flow_below};
ghost use Rattle.greedy_rules.specs.Limits.{AreLimits};
ghost use Rattle.takeover_core.specs.Entries.{entry_at, entries_row, entries_between, AreBelowFlow};

use crate::flow_table::FlowTable;
use greedy_rules::{Batch, Entry, Flow, Limits};
use no_memory::NoMemory;
use std::alloc::Global;

/// Appends an entry where the total of the flow rose above what is published.
fn push_rise(
    batch: &mut Batch,
    told: &FlowTable,
    published: &FlowTable,
    src: u16,
    dst: u16,
) -> Result<(), NoMemory>
    requires src { src < told.now.endpoints }
    requires dst { dst < told.now.endpoints }
    requires tables { published.now.endpoints ≡ told.now.endpoints }
    requires above { AreBelowFlow batch.old.entries src dst }
    ensures entries { OnOk result (batch.new.entries ≡ batch.old.entries ++ cons_option (entry_at told.now published.now src dst) []) }
    ensures above { OnOk result (AreBelowFlow batch.new.entries src (dst + 1)) }
    ensures limits { batch.new.limits ≡ batch.old.limits }
{
    let before = published.get(src, dst);
    let now = told.get(src, dst);
    if before < now {
        batch.push(Entry {
            flow: Flow { src, dst },
            opens: before == 0,
            clear: false,
            add: now - before,
        })?;
    }
    Ok(())
}

/// Appends the entries of one source.
fn push_rises(
    batch: &mut Batch,
    told: &FlowTable,
    published: &FlowTable,
    src: u16,
    endpoints: u16,
) -> Result<(), NoMemory>
    requires src { src < endpoints }
    requires told { told.now.endpoints ≡ endpoints }
    requires published { published.now.endpoints ≡ endpoints }
    requires above { AreBelowFlow batch.old.entries src 0 }
    ensures entries { OnOk result (batch.new.entries ≡ batch.old.entries ++ entries_row told.now published.now src endpoints) }
    ensures above { OnOk result (AreBelowFlow batch.new.entries (src + 1) 0) }
    ensures limits { batch.new.limits ≡ batch.old.limits }
{
    for dst in 0..endpoints {
        push_rise(batch, told, published, src, dst)?;
    }
    Ok(())
}

/// The batch of the totals that rose since they were published, in one rack with one core.
pub(crate) fn batch_of(
    alloc: Global,
    told: &FlowTable,
    published: &FlowTable,
    endpoints: u16,
) -> Result<Batch, NoMemory>
    requires endpoints { 0 < endpoints }
    requires few { endpoints ≤ 64 }
    requires told { told.now.endpoints ≡ endpoints }
    requires published { published.now.endpoints ≡ endpoints }
    ensures { IfOk result (λ batch. batch ≡ record { entries = entries_between told.now published.now endpoints; limits = record { hosts = endpoints; cores = 1 } }) }
{
    let mut batch = Batch::with_limits(
        alloc,
        Limits {
            hosts: endpoints,
            cores: 1,
        },
    );
    for src in 0..endpoints {
        push_rises(&mut batch, told, published, src, endpoints)?;
    }
    Ok(batch)
}
