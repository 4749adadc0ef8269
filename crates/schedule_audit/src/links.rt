//! The links of a network, and the slots in which they were taken.
ghost use Rattle.std.specs.Prelude.{◌≡◌, ◌<◌, ◌≤◌, ◌*◌, ◌+◌, ◌==◌, length, ℕ, List, [], ◌∷◌, IfOk, false, true, not, slice_index, slice_set, vec_len};
ghost use Rattle.std.specs.List.{list_any};
ghost use Rattle.greedy_rules.specs.Limits.{rack_of};
ghost use Rattle.clos_topology.specs.Network.{endpoints_of};
ghost use Rattle.schedule_audit.specs.Lines.{Path};
ghost use Rattle.schedule_audit.specs.Wrong.{has_wrong_core, share_a_link};
ghost use Rattle.schedule_audit.specs.Marks.{AreUpTo, AreRacksOfNet, PathsAreMarked, HaveMarks};

use crate::packets::{Path, Place};
use clos_topology::Net;
use greedy_rules::Flow;
use no_memory::NoMemory;
use std::alloc::Global;

/// The number of the last slot in which each link was taken, 0 for none: up from each endpoint, down to each, and for each
/// rack and core from the rack up to the core, and from the core down to the rack; and the rack of each endpoint.
#[derive(Drop)]
pub(crate) struct Links {
    up: Vec<u32>,
    down: Vec<u32>,
    rise: Vec<u32>,
    fall: Vec<u32>,
    racks: Vec<u16>,
}

/// Marks a link as taken in a slot. False where it was taken in it before.
fn take(marks: &mut Vec<u32>, at: usize, slot: u32) -> bool
    requires { at < length marks.old.items }
    ensures free { result ≡ not (slice_index marks.old.items at == slot) }
    ensures marks { marks.new.items ≡ slice_set marks.old.items at slot }
{
    let free = marks[at] != slot;
    marks[at] = slot;
    free
}

/// The rack of each endpoint of a network, so that none is divided for.
fn racks_of(alloc: Global, net: &Net) -> Result<Vec<u16>, NoMemory>
    ensures { IfOk result (λ racks. AreRacksOfNet net.now racks.items) }
{
    let endpoints = net.endpoints();
    let mut racks = vec![in alloc; 0; endpoints as usize]?;
    for endpoint in 0..endpoints {
        racks[endpoint as usize] = net.rack_of(endpoint);
    }
    Ok(racks)
}

impl Links {
    /// All links of a network; none is taken.
    pub(crate) fn open(alloc: Global, net: &Net) -> Result<Links, NoMemory>
        ensures none { IfOk result (λ links. PathsAreMarked net.now links []) }
        ensures marks { IfOk result (HaveMarks net.now) }
    {
        let endpoints = net.endpoints() as usize;
        let pairs = net.racks() as usize * net.cores() as usize;
        Ok(Links {
            up: vec![in alloc; 0; endpoints]?,
            down: vec![in alloc; 0; endpoints]?,
            rise: vec![in alloc; 0; pairs]?,
            fall: vec![in alloc; 0; pairs]?,
            racks: racks_of(alloc, net)?,
        })
    }

    /// Whether a core is named although the packet stays in its rack, or none is named although it leaves it, or it is none of
    /// the network's.
    pub(crate) fn has_wrong_core(&self, net: &Net, flow: Flow, core: Option<u16>) -> bool
        requires marks { HaveMarks net.now self.now }
        requires src { flow.src < endpoints_of net.now }
        requires dst { flow.dst < endpoints_of net.now }
        ensures { result ≡ has_wrong_core net.now flow core }
    {
        let stays = self.racks[flow.src as usize] == self.racks[flow.dst as usize];
        match core {
            Some(core) => stays || net.cores() <= core,
            None => !stays,
        }
    }

    /// The place of the links between an endpoint's rack and a core.
    fn place_of(&self, net: &Net, endpoint: u16, core: u16) -> usize
        requires marks { HaveMarks net.now self.now }
        requires endpoint { endpoint < endpoints_of net.now }
        requires core { core < net.now.cores }
        ensures place { result ≡ rack_of net.now.hosts endpoint * net.now.cores + core }
        ensures within { result < net.now.racks * net.now.cores }
    {
        self.racks[endpoint as usize] as usize * net.cores() as usize + core as usize
    }

    /// Takes the links of a path, whose core is right, in its slot. False where one was taken in it before.
    pub(crate) fn take(&mut self, net: &Net, path: Path) -> bool
        requires marks { HaveMarks net.now self.old }
        requires src { path.place.flow.src < endpoints_of net.now }
        requires dst { path.place.flow.dst < endpoints_of net.now }
        requires slot { 0 < path.place.slot }
        requires core { has_wrong_core net.now path.place.flow path.core ≡ false }
        ensures free { (before : List Path) → AreUpTo path.place.slot before → PathsAreMarked net.now self.old before → result ≡ not (list_any (share_a_link net.now path) before) }
        ensures taken { (before : List Path) → AreUpTo path.place.slot before → PathsAreMarked net.now self.old before → PathsAreMarked net.now self.new (path ∷ before) }
        ensures marks { HaveMarks net.now self.new }
    {
        let Place { slot, flow } = path.place;
        let up = take(&mut self.up, flow.src as usize, slot);
        let down = take(&mut self.down, flow.dst as usize, slot);
        match path.core {
            Some(core) => {
                let from = self.place_of(net, flow.src, core);
                let to = self.place_of(net, flow.dst, core);
                let rise = take(&mut self.rise, from, slot);
                let fall = take(&mut self.fall, to, slot);
                up & down & rise & fall
            }
            None => up & down,
        }
    }
}
