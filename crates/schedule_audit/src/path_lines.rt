//! The `slot` lines, held against the schedule as it goes by.
ghost use Rattle.std.specs.Prelude.{◌≡◌, ◌<◌, ◌≤◌, ◌++◌, ◌∷◌, [], List, IfOk, All, false};
ghost use Rattle.clos_topology.specs.Network.{endpoints_of};
ghost use Rattle.schedule_audit.specs.Lines.{Place, Path};
ghost use Rattle.schedule_audit.specs.Marks.{AreUpTo, PathsAreMarked, HaveMarks};
ghost use Rattle.schedule_audit.specs.Judged.{is_off, first_path, PathsStand};

use crate::links::Links;
use crate::packets::{Numbered, Path, Place, same_place};
use clos_topology::Net;
use no_memory::NoMemory;
use std::alloc::Global;

/// The `slot` lines of a text in their order, how many of them were judged, and the first wrong one.
#[derive(Drop)]
pub(crate) struct PathLines {
    pub(crate) lines: Vec<Numbered<Path>>,
    next: usize,
    links: Links,
    bad: Option<u32>,
}

/// Whether a path is not at a place, has no right core, or takes a link that was taken in its slot before. Else its links are
/// taken.
fn is_off(links: &mut Links, net: &Net, place: Place, path: Path) -> bool
    requires marks { HaveMarks net.now links.old }
    requires src { place.flow.src < endpoints_of net.now }
    requires dst { place.flow.dst < endpoints_of net.now }
    requires slot { 0 < place.slot }
    ensures off { (before : List Path) → AreUpTo place.slot before → PathsAreMarked net.now links.old before → result ≡ is_off net.now place before path }
    ensures marked { (before : List Path) → AreUpTo place.slot before → PathsAreMarked net.now links.old before → result ≡ false → PathsAreMarked net.now links.new (path ∷ before) }
    ensures marks { HaveMarks net.now links.new }
{
    if !same_place(place, path.place) {
        return true;
    }
    if links.has_wrong_core(net, place.flow, path.core) {
        return true;
    }
    let core = path.core;
    !links.take(net, Path { place, core })
}

impl PathLines {
    pub(crate) fn open(
        alloc: Global,
        net: &Net,
        lines: Vec<Numbered<Path>>,
    ) -> Result<PathLines, NoMemory>
        ensures stands { IfOk result (PathsStand net.now []) }
        ensures marks { IfOk result (λ opened. HaveMarks net.now opened.links) }
        ensures lines { IfOk result (λ opened. opened.lines.items ≡ lines.items) }
    {
        Ok(PathLines {
            lines,
            next: 0,
            links: Links::open(alloc, net)?,
            bad: None,
        })
    }

    /// Judges the next line by the next place of the schedule.
    pub(crate) fn visit(&mut self, net: &Net, place: Place)
        requires marks { HaveMarks net.now self.old.links }
        requires src { place.flow.src < endpoints_of net.now }
        requires dst { place.flow.dst < endpoints_of net.now }
        requires slot { 0 < place.slot }
        ensures stands { (visited : List Place) → All (λ p. p.slot ≤ place.slot) visited → PathsStand net.now visited self.old → PathsStand net.now (visited ++ place ∷ []) self.new }
        ensures marks { HaveMarks net.now self.new.links }
        ensures lines { self.new.lines ≡ self.old.lines }
    {
        if self.bad.is_some() {
            return;
        }
        if self.next >= self.lines.len() {
            return;
        }
        let line = self.lines[self.next];
        self.next += 1;
        if is_off(&mut self.links, net, place, line.said) {
            self.bad = Some(line.line);
        }
    }

    /// The first wrong line, where no more places come.
    pub(crate) fn first_wrong(&self, net: &Net) -> Option<u32>
        ensures { (visited : List Place) → PathsStand net.now visited self.now → result ≡ first_path net.now visited [] self.now.lines.items }
    {
        let _ = net;
        if self.bad.is_some() {
            return self.bad;
        }
        if self.next < self.lines.len() {
            return Some(self.lines[self.next].line);
        }
        None
    }
}
