//! One path worker's colouring.
ghost use Rattle.std.specs.Prelude.{◌≡◌, ◌≢◌, ◌<◌, ◌≤◌, ℕ, List, length, None, IsTrue, IfOk, IfSome, vec_len, vec_capacity};
ghost use Rattle.greedy_rules.specs.declared.flows.Flow.{Flow};
ghost use Rattle.greedy_rules.specs.Schedule.{slot_in};
ghost use Rattle.clos_topology.specs.Network.{Network, endpoints_of};
ghost use Rattle.path_workers.specs.CoreTable.{core_of, row_of, HasRoomOf};
ghost use Rattle.path_workers.specs.Coloured.{HasItsCores};
ghost use Rattle.path_workers.specs.Jobs.{is_slot};
ghost use Rattle.path_workers.specs.Painters.{IsPainter, HasPainted, HasRow, MayPaint, AreRowsOf, HasGiven, cores_place, has_row};

use crate::core_table::CoreTable;
use crate::jobs::Job;
use clos_topology::{Net, RackGraph};
use edge_colouring::{Table, colour, every_colouring_makes_a_matching_clean, limits_are_degrees};
use fp_edge::Gate;
use greedy_rules::SlotTable;
use no_memory::NoMemory;
use std::alloc::Global;

/// So few packets between racks are coloured sooner than two slots are compared.
const FEW: usize = 16;

/// The place of a slot whose packets have no core: past the rows of every worker.
const IDLE: u16 = 1_024;

/// The place of a slot with one packet between racks, whose source is 0: it needs no row, since it takes the first core. The
/// places behind it are those of the other sources.
const FIRST: u16 = 1_025;

/// What a path worker colours slots with, and the rows of cores that it has made.
#[derive(Drop)]
pub(crate) struct Painter {
    pub(crate) number: u16,
    net: Net,
    graph: RackGraph,
    table: Table,
    // By slot: where its cores stand, if this worker has coloured it.
    places: Vec<Option<u16>>,
    // The slots that it has coloured whose packets have cores.
    made: Vec<u16>,
    // The slot that it coloured last.
    last: u16,
    // A row for each slot, which has a core or None for each endpoint.
    rows: Vec<Option<u16>>,
}

impl Painter {
    /// The path worker of this number, for at most so many slots of the network.
    pub(crate) fn open(
        alloc: Global,
        number: u16,
        net: &Net,
        slots: u16,
    ) -> Result<Painter, NoMemory>
        requires { slots ≤ 1024 }
        ensures sized { IfOk result (IsPainter net.now slots) }
        ensures number { IfOk result (λ painter. painter.number ≡ number) }
    {
        let endpoints = net.endpoints();
        Ok(Painter {
            number,
            net: *net,
            graph: RackGraph::open(alloc, endpoints)?,
            table: Table::open(alloc, net)?,
            places: vec![in alloc; None; slots as usize]?,
            made: Vec::with_capacity(alloc, slots as usize)?,
            last: 0,
            rows: vec![in alloc; None; slots as usize * endpoints as usize]?,
        })
    }

    /// Forgets which slots it has coloured.
    pub(crate) fn forget(&mut self)
        ensures painted { (net : Network) (room : ℕ) (slots : List (List Flow)) → IsPainter net room self.old → HasPainted net room slots self.new }
        ensures number { self.new.number ≡ self.old.number }
    {
        self.places.fill(None);
        self.made.clear();
    }

    /// Colours the slot that the job names, once the gate has let the worker pass. Answers whether it names one.
    #[inline(always)]
    pub(crate) fn take_up<G: Gate>(&mut self, gate: &G, slots: &SlotTable, job: Job) -> bool
        requires may { MayPaint slots.now.slots self.old }
        ensures painted { HasPainted self.old.net (vec_len self.old.places) slots.now.slots self.new }
        ensures row { (slot : ℕ) → slot < length slots.now.slots → 0 < is_slot slot job → IsTrue (has_row slot self.new) }
        ensures keeps { (slot : ℕ) → IsTrue (has_row slot self.old) → IsTrue (has_row slot self.new) }
        ensures number { self.new.number ≡ self.old.number }
    {
        match job {
            Job::Slot(slot) if slot < slots.slots() => {
                gate.paint(self.number, u32::from(slot));
                self.paint(slots, slot);
                true
            }
            _ => false,
        }
    }

    /// Gives the slot's packets their cores. A slot that this worker has coloured stays as it is.
    #[inline(always)]
    fn paint(&mut self, slots: &SlotTable, slot: u16)
        requires slot { slot < length slots.now.slots }
        requires may { MayPaint slots.now.slots self.old }
        ensures painted { HasPainted self.old.net (vec_len self.old.places) slots.now.slots self.new }
        ensures row { IsTrue (has_row slot self.new) }
        ensures keeps { (other : ℕ) → IsTrue (has_row other self.old) → IsTrue (has_row other self.new) }
        ensures number { self.new.number ≡ self.old.number }
    {
        every_colouring_makes_a_matching_clean();
        if self.places[slot as usize].is_some() {
            return;
        }
        if !slots.has_row(slot) {
            self.note(slot, IDLE);
            return;
        }
        let place = self.make_row(slots, slot);
        self.note(slot, place);
    }

    /// Notes where the cores of the slot's packets stand, and lists the slot where they have some.
    #[inline(always)]
    fn note(&mut self, slot: u16, place: u16)
        requires slot { slot < vec_len self.old.places }
        requires new { cores_place self.old slot ≡ None }
        requires room { vec_len self.old.made < vec_capacity self.old.made }
        ensures painted { (net : Network) (room : ℕ) (slots : List (List Flow)) → slot < length slots → HasPainted net room slots self.old → HasRow net room slots self.old slot place → HasPainted net room slots self.new }
        ensures row { IsTrue (has_row slot self.new) }
        ensures keeps { (other : ℕ) → IsTrue (has_row other self.old) → IsTrue (has_row other self.new) }
        ensures number { self.new.number ≡ self.old.number }
    {
        self.places[slot as usize] = Some(place);
        if place == IDLE {
            return;
        }
        self.made.push_reserved(slot);
    }

    /// The row of the slot coloured last, where that one has the same packets. It isn't looked at where few packets were coloured
    /// last.
    fn last_row(&self, slots: &SlotTable, slot: u16) -> Option<u16>
        requires slot { slot < length slots.now.slots }
        requires may { MayPaint slots.now.slots self.now }
        ensures { IfSome result (HasRow self.now.net (vec_len self.now.places) slots.now.slots self.now slot) }
    {
        if self.graph.len() <= FEW {
            return None;
        }
        if self.last >= slots.slots() {
            return None;
        }
        let place = self.places[self.last as usize]?;
        if slots.are_equal(self.last, slot) {
            Some(place)
        } else {
            None
        }
    }

    /// Where the cores of the slot's packets stand: in its own row, which is written, in one that has them already, or, where at
    /// most one packet goes between racks, in none.
    #[inline(never)]
    fn make_row(&mut self, slots: &SlotTable, slot: u16) -> u16
        requires slot { slot < length slots.now.slots }
        requires may { MayPaint slots.now.slots self.old }
        ensures painted { HasPainted self.old.net (vec_len self.old.places) slots.now.slots self.new }
        ensures row { HasRow self.old.net (vec_len self.old.places) slots.now.slots self.new slot result }
        ensures places { self.new.places ≡ self.old.places }
        ensures made { self.new.made ≡ self.old.made }
        ensures number { self.new.number ≡ self.old.number }
    {
        every_colouring_makes_a_matching_clean();
        limits_are_degrees();
        if let Some(place) = self.last_row(slots, slot) {
            return place;
        }
        self.last = slot;
        self.graph.load(&self.net, slots, slot);
        let endpoints = self.net.endpoints();
        if self.graph.is_empty() {
            return IDLE;
        }
        let is_alone = self.graph.len() == 1;
        if is_alone {
            return FIRST + self.graph.edge(0).0;
        }
        let coloured = colour(&self.graph, self.net.cores(), &mut self.table).is_ok();
        prove!(coloured);
        let from = slot as usize * endpoints as usize;
        let row = &mut self.rows[from..from + endpoints as usize];
        row.copy_from_slice(self.table.cores());
        slot
    }

    /// Gives each slot that this worker has listed its row of cores in the table.
    pub(crate) fn give_rows(&self, out: &mut CoreTable)
        requires may { (slots : List (List Flow)) × MayPaint slots self.now × (length slots ≤ out.old.slots) }
        requires endpoint_room { endpoints_of self.now.net ≤ out.old.endpoints }
        ensures given { (slots : List (List Flow)) → MayPaint slots self.now → AreRowsOf self.now.net slots out.old → HasGiven slots self.now out.old out.new }
        ensures room { HasRoomOf out.old out.new }
    {
        for slot in &self.made {
            self.give_row(*slot, out);
        }
    }

    /// Gives the slot, which this worker has coloured, its row of cores in the table, if it has none there.
    fn give_row(&self, slot: u16, out: &mut CoreTable)
        requires may { (slots : List (List Flow)) × MayPaint slots self.now × (slot < length slots) }
        requires slot_in_range { slot < out.old.slots }
        requires endpoint_room { endpoints_of self.now.net ≤ out.old.endpoints }
        ensures row { (slots : List (List Flow)) → MayPaint slots self.now → AreRowsOf self.now.net slots out.old → slot < length slots → IsTrue (has_row slot self.now) → HasItsCores self.now.net (slot_in slots slot) (core_of out.new slot) }
        ensures others { (other : ℕ) → other ≢ slot → row_of out.new other ≡ row_of out.old other }
        ensures room { HasRoomOf out.old out.new }
    {
        if !out.row(slot).is_empty() {
            return;
        }
        let Some(place) = self.places[slot as usize] else {
            return;
        };
        if place >= FIRST {
            out.set_first(slot, place - FIRST);
            return;
        }
        if place as usize >= self.places.len() {
            return;
        }
        let endpoints = self.net.endpoints() as usize;
        let from = place as usize * endpoints;
        out.set(slot, &self.rows[from..from + endpoints]);
    }
}
