ghost use Rattle.std.specs.Prelude.{◌≡◌, ◌<◌, ◌≤◌, ◌+◌, ℕ, [], ◌++◌, length, replicate, None, IfOk, vec_len, vec_capacity};
ghost use Rattle.std.specs.List.{slice_index_or};
ghost use Rattle.path_workers.specs.CoreTable.{HasRoomOf, HasSet, core_of, row_of, NamesNone};
ghost use Rattle.path_workers.specs.CoreRows.{first_row, band, band_len};

use no_memory::NoMemory;
use std::alloc::Global;
use std::marker::Model;

/// The cores of the packets of many slots: of each slot, counted from 0, a row of cores by source, which is empty until it is
/// set.
#[derive(Debug, Drop)]
pub struct CoreTable {
    slots: u16,
    endpoints: u16,
    // By slot: where its row stands.
    places: Vec<Place>,
    // First the band of which each row that names the first core for one source alone is a part, then row after row.
    cores: Vec<Option<u16>>,
}

/// Where the row of a slot stands: by default nowhere, since it is empty.
#[derive(Debug, Clone, Copy, Default)]
pub(crate) struct Place {
    from: u32,
    len: u16,
}

impl Model for CoreTable {
    ghost use Rattle.path_workers.specs.CoreTable.{CoreSlots};
    ghost use Rattle.path_workers.specs.CoreRows.{AreCoreRows, rows_at_places};

    ghost Value = { CoreSlots };

    ghost view = { λ t. record { slots = t.slots; endpoints = t.endpoints; rows = rows_at_places t.cores.items t.places.items } };

    ghost invariant = { AreCoreRows };
}

impl CoreTable {
    /// A table for so many slots of so many endpoints, which names no core.
    pub fn open(alloc: Global, slots: u16, endpoints: u16) -> Result<CoreTable, NoMemory>
        ensures slots { IfOk result (λ table. table.slots ≡ slots) }
        ensures endpoints { IfOk result (λ table. table.endpoints ≡ endpoints) }
        ensures none { IfOk result (λ table. (slot : ℕ) → NamesNone (core_of table slot)) }
    {
        let mut cores = Vec::with_capacity(
            alloc,
            band_len(endpoints) + slots as usize * endpoints as usize,
        )?;
        add_band(&mut cores, endpoints);
        Ok(CoreTable {
            slots,
            endpoints,
            places: vec![in alloc; Place::default(); slots as usize]?,
            cores,
        })
    }

    /// Names no core any more.
    pub(crate) fn clear(&mut self)
        ensures empty { (slot : ℕ) → row_of self.new slot ≡ [] }
        ensures room { HasRoomOf self.old self.new }
    {
        self.places.fill(Place::default());
        self.cores.truncate(band_len(self.endpoints));
    }

    /// Gives the slot, which has none yet, this row. It may be shorter than there are endpoints, and names no core for the others.
    pub(crate) fn set(&mut self, slot: u16, row: &[Option<u16>])
        requires slot_in_range { slot < self.old.slots }
        requires empty { row_of self.old slot ≡ [] }
        requires endpoint_room { length row.now ≤ self.old.endpoints }
        ensures { HasSet slot row.now self.old self.new }
    {
        self.places[slot as usize] = Place {
            from: self.cores.len() as u32,
            len: row.len() as u16,
        };
        add_row(&mut self.cores, row);
    }

    /// Gives the slot the row that names the first core for this source alone. No core is written.
    #[inline(always)]
    pub(crate) fn set_first(&mut self, slot: u16, src: u16)
        requires slot_in_range { slot < self.old.slots }
        requires empty { row_of self.old slot ≡ [] }
        requires src_in_range { src < self.old.endpoints }
        ensures { HasSet slot (first_row self.old.endpoints src) self.old self.new }
    {
        self.places[slot as usize] = Place {
            from: u32::from(self.endpoints - 1 - src),
            len: self.endpoints,
        };
    }

    /// How many slots there is room for.
    pub fn slots(&self) -> u16
        ensures { result ≡ self.now.slots }
    {
        self.slots
    }

    /// How many endpoints there is room for.
    pub fn endpoints(&self) -> u16
        ensures { result ≡ self.now.endpoints }
    {
        self.endpoints
    }

    /// The cores of the packets in the slot, by source; a source past the end has none.
    pub fn row(&self, slot: u16) -> &[Option<u16>]
        requires { slot < self.now.slots }
        ensures { result.now ≡ slice_index_or self.now.rows slot [] }
    {
        let place = self.places[slot as usize];
        let from = place.from as usize;
        &self.cores[from..from + place.len as usize]
    }

    /// The core of the source's packet in the slot; None where it sends nothing, or within its rack.
    pub fn core(&self, slot: u16, src: u16) -> Option<u16>
        requires slot_in_range { slot < self.now.slots }
        requires src_in_range { src < self.now.endpoints }
        ensures { result ≡ core_of self.now slot src }
    {
        match self.row(slot).get(src as usize) {
            Some(core) => *core,
            None => None,
        }
    }
}

/// How many cells the band has of which each row that names the first core for one source alone is a part.
fn band_len(endpoints: u16) -> usize
    ensures { result ≡ band_len endpoints }
{
    2 * (endpoints as usize).saturating_sub(1) + 1
}

/// Puts this band behind the cores, which have room for it.
fn add_band(cores: &mut Vec<Option<u16>>, endpoints: u16)
    requires room { vec_len cores.old + band_len endpoints ≤ vec_capacity cores.old }
    ensures items { cores.new.items ≡ cores.old.items ++ band endpoints }
    ensures capacity { vec_capacity cores.new ≡ vec_capacity cores.old }
{
    let others = (endpoints as usize).saturating_sub(1);
    add_none(cores, others);
    cores.push_reserved(Some(0));
    add_none(cores, others);
}

/// Puts so many cells without a core behind the cores, which have room for them.
fn add_none(cores: &mut Vec<Option<u16>>, count: usize)
    requires room { vec_len cores.old + count ≤ vec_capacity cores.old }
    ensures items { cores.new.items ≡ cores.old.items ++ replicate count None }
    ensures capacity { vec_capacity cores.new ≡ vec_capacity cores.old }
{
    for _at in 0..count {
        cores.push_reserved(None);
    }
}

/// Puts a row behind the cores, which have room for it.
fn add_row(cores: &mut Vec<Option<u16>>, row: &[Option<u16>])
    requires room { vec_len cores.old + length row.now ≤ vec_capacity cores.old }
    ensures items { cores.new.items ≡ cores.old.items ++ row.now }
    ensures capacity { vec_capacity cores.old ≤ vec_capacity cores.new }
{
    let _ = cores.extend_from_slice(row);
}
