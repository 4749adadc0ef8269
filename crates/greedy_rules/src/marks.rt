ghost use Rattle.std.specs.Prelude.{◌≡◌, ◌<◌, ◌≤◌, [], length, true, false, IfOk, slice_set};
ghost use Rattle.greedy_rules.specs.Limits.{AreLimits, rack_of, is_outward};
ghost use Rattle.greedy_rules.specs.Walk.{HavePlaces, AreOf, bars, has_no_core, counted};

use crate::flows::Flow;
use crate::limits::Limits;
use no_memory::NoMemory;
use std::alloc::Global;

/// What a slot's flows keep taken beside their sources: their destinations, and the cores of their racks on either side.
#[derive(Debug, Drop)]
pub(crate) struct Marks {
    limits: Limits,
    receives: Vec<bool>,
    leaving: Vec<u16>,
    entering: Vec<u16>,
}

impl Marks {
    /// The marks of an empty slot of so many endpoints.
    pub(crate) fn open(alloc: Global, endpoints: u16, limits: Limits) -> Result<Marks, NoMemory>
        requires sizes { AreLimits limits }
        ensures limits { IfOk result (λ marks. marks.limits ≡ limits) }
        ensures places { IfOk result (λ marks. HavePlaces endpoints marks) }
    {
        let racks = (endpoints / limits.hosts) as usize + 1;
        Ok(Marks {
            limits,
            receives: vec![in alloc; false; endpoints as usize]?,
            leaving: vec![in alloc; 0; racks]?,
            entering: vec![in alloc; 0; racks]?,
        })
    }

    /// Makes them the marks of an empty slot.
    pub(crate) fn clear(&mut self)
        ensures limits { self.new.limits ≡ self.old.limits }
        ensures receives { length self.new.receives.items ≡ length self.old.receives.items }
        ensures leaving { length self.new.leaving.items ≡ length self.old.leaving.items }
        ensures entering { length self.new.entering.items ≡ length self.old.entering.items }
        ensures empty { AreOf [] self.new }
    {
        self.receives.fill(false);
        self.leaving.fill(0);
        self.entering.fill(0);
    }

    /// Whether the flow's destination receives already, or one of its racks has no core left for it.
    pub(crate) fn bars(&self, flow: Flow) -> bool
        requires sizes { AreLimits self.now.limits }
        requires dst { flow.dst < length self.now.receives.items }
        requires from { rack_of self.now.limits.hosts flow.src < length self.now.leaving.items }
        requires into { rack_of self.now.limits.hosts flow.dst < length self.now.entering.items }
        ensures { result ≡ bars self.now flow }
    {
        self.receives[flow.dst as usize] || (self.is_outward(flow) && self.lacks_core(flow))
    }

    /// Marks the flow, which nothing marked keeps out.
    pub(crate) fn take(&mut self, flow: Flow)
        requires sizes { AreLimits self.old.limits }
        requires dst { flow.dst < length self.old.receives.items }
        requires from { rack_of self.old.limits.hosts flow.src < length self.old.leaving.items }
        requires into { rack_of self.old.limits.hosts flow.dst < length self.old.entering.items }
        requires free { bars self.old flow ≡ false }
        ensures limits { self.new.limits ≡ self.old.limits }
        ensures receives { self.new.receives.items ≡ slice_set self.old.receives.items flow.dst true }
        ensures leaving { self.new.leaving.items ≡ counted (is_outward self.old.limits.hosts flow) (rack_of self.old.limits.hosts flow.src) self.old.leaving.items }
        ensures entering { self.new.entering.items ≡ counted (is_outward self.old.limits.hosts flow) (rack_of self.old.limits.hosts flow.dst) self.old.entering.items }
    {
        self.receives[flow.dst as usize] = true;
        if self.is_outward(flow) {
            let from = self.rack_of(flow.src);
            let into = self.rack_of(flow.dst);
            self.leaving[from] += 1;
            self.entering[into] += 1;
        }
    }

    fn is_outward(&self, flow: Flow) -> bool
        requires { 1 ≤ self.now.limits.hosts }
        ensures { result ≡ is_outward self.now.limits.hosts flow }
    {
        self.rack_of(flow.src) != self.rack_of(flow.dst)
    }

    /// Whether one outward flow more would be too many for either of its racks.
    fn lacks_core(&self, flow: Flow) -> bool
        requires hosts { 1 ≤ self.now.limits.hosts }
        requires from { rack_of self.now.limits.hosts flow.src < length self.now.leaving.items }
        requires into { rack_of self.now.limits.hosts flow.dst < length self.now.entering.items }
        ensures { result ≡ has_no_core self.now flow }
    {
        let sent = self.leaving[self.rack_of(flow.src)];
        let received = self.entering[self.rack_of(flow.dst)];
        sent >= self.limits.cores || received >= self.limits.cores
    }

    fn rack_of(&self, endpoint: u16) -> usize
        requires { 1 ≤ self.now.limits.hosts }
        ensures { result ≡ rack_of self.now.limits.hosts endpoint }
    {
        (endpoint / self.limits.hosts) as usize
    }
}
