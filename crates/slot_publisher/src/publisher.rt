ghost use Rattle.std.specs.Prelude.{◌≡◌, ◌≢◌, ◌<◌, ◌≤◌, ◌+◌, ◌-◌, ◌*◌, ◌%◌, ◌++◌, ℕ, [], length, map, take, option_map, unwrap_or, None, All, Contains, IfOk, IfSome};
ghost use Rattle.std.specs.List.{cons_option, slice_index_or};
ghost use Rattle.std.specs.List.Sorted.{IsStrictlyIncreasing};
ghost use Rattle.fcp_framing.specs.declared.packet.Told.{Told as ToldSlot};
ghost use Rattle.fcp_framing.specs.Spelling.{IsCore};
ghost use Rattle.slot_publisher.specs.Window.{HoldsSlots, NamesCores};
ghost use Rattle.slot_publisher.specs.Told.{AreToldOf};
ghost use Rattle.slot_publisher.specs.Places.{ListsArePut, ListsTell};

use arrayvec::ArrayVec;
use fcp_framing::Told;
use greedy_rules::SlotTable;
use no_memory::NoMemory;
use path_workers::CoreTable;
use std::alloc::Global;
use std::boxed::BoxedSlice;
use std::marker::Model;

/// The core of a told slot that has none.
const NO_CORE: u8 = 255;

/// What stands in a place that tells nothing.
const BLANK: Told = Told {
    offset: 0,
    core: NO_CORE,
    dst: 0,
};

/// The slots of a window of batches, from which each endpoint is told its own: batch after batch, and in each endpoint after
/// endpoint, a list in `b` places of its own.
#[derive(Debug, Drop)]
pub struct Publisher {
    endpoints: u16,
    batches: u16,
    b: u8,
    first_batch: u32,
    count: u16,
    // Of how many slots each list tells.
    counts: BoxedSlice<u8>,
    told: BoxedSlice<Told>,
}

impl Model for Publisher {
    ghost use Rattle.std.specs.Prelude.{◌≡◌, ◌<◌, ◌≤◌, ◌*◌};
    ghost use Rattle.std.specs.Box.{boxed_slice_items, boxed_slice_len};
    ghost use Rattle.slot_publisher.specs.Window.{PublisherWindow};
    ghost use Rattle.slot_publisher.specs.Places.{slots_of_lists, AreLists};

    ghost Value = { PublisherWindow };

    ghost view = { λ p. record {
      endpoints = p.endpoints;
      batches = p.batches;
      b = p.b;
      first_batch = p.first_batch;
      count = p.count;
      slots = slots_of_lists p.endpoints p.b (p.count * p.b) (boxed_slice_items p.counts) (boxed_slice_items p.told);
    } };

    ghost invariant = { λ p.
        (0 < p.b) × (p.b ≤ 64) × (p.count ≤ p.batches)
        × (boxed_slice_len p.counts ≡ p.batches * p.endpoints) × (boxed_slice_len p.told ≡ p.batches * p.endpoints * p.b)
        × AreLists p.endpoints p.b (p.count * p.endpoints) (boxed_slice_items p.counts) (boxed_slice_items p.told) };
}

impl Publisher {
    /// For so many endpoints, and windows of at most so many batches of `b` slots. It holds no batch. No later call takes memory.
    pub fn open(alloc: Global, endpoints: u16, batches: u16, b: u8) -> Result<Publisher, NoMemory>
        requires some_slot { 0 < b }
        requires most_slots { b ≤ 64 }
        ensures endpoints { IfOk result (λ publisher. publisher.endpoints ≡ endpoints) }
        ensures batches { IfOk result (λ publisher. publisher.batches ≡ batches) }
        ensures b { IfOk result (λ publisher. publisher.b ≡ b) }
        ensures first { IfOk result (λ publisher. publisher.first_batch ≡ 0) }
        ensures count { IfOk result (λ publisher. publisher.count ≡ 0) }
        ensures slots { IfOk result (λ publisher. publisher.slots ≡ []) }
    {
        let lists = batches as usize * endpoints as usize;
        Ok(Publisher {
            endpoints,
            batches,
            b,
            first_batch: 0,
            count: 0,
            counts: vec![in alloc; 0; lists]?.into_boxed_slice(),
            told: vec![in alloc; BLANK; lists * b as usize]?.into_boxed_slice(),
        })
    }

    /// How many endpoints it serves.
    pub fn endpoints(&self) -> u16
        ensures { result ≡ self.now.endpoints }
    {
        self.endpoints
    }

    /// The first batch that is held.
    pub fn first_batch(&self) -> u32
        ensures { result ≡ self.now.first_batch }
    {
        self.first_batch
    }

    /// How many batches are held.
    pub fn count(&self) -> u16
        ensures { result ≡ self.now.count }
    {
        self.count
    }

    /// Holds these slots with their cores in place of what it held: the slot at place `s * b + i` is slot i of batch
    /// `first_batch + s`.
    pub fn put(&mut self, first_batch: u32, slots: &SlotTable, cores: &CoreTable)
        requires endpoints { slots.now.endpoints ≡ self.old.endpoints }
        requires whole { length slots.now.slots % self.old.b ≡ 0 }
        requires room { length slots.now.slots ≤ self.old.batches * self.old.b }
        requires core_slots { length slots.now.slots ≤ cores.now.slots }
        requires core_endpoints { slots.now.endpoints ≤ cores.now.endpoints }
        requires cores { NamesCores slots.now.slots cores.now }
        ensures { HoldsSlots self.old first_batch slots.now.slots cores.now self.new }
    {
        self.first_batch = first_batch;
        self.count = slots.slots() / u16::from(self.b);
        put_lists(
            slots,
            cores,
            self.b,
            self.count,
            &mut self.counts,
            &mut self.told,
        );
    }

    /// What the endpoint is told of a batch that is held: its slots, rising by offset, with destination and core.
    pub fn told(&self, endpoint: u16, batch: u32) -> &[Told]
        requires endpoint { endpoint < self.now.endpoints }
        requires first { self.now.first_batch ≤ batch }
        requires last { batch < self.now.first_batch + self.now.count }
        ensures { AreToldOf self.now endpoint batch result.now }
    {
        let list = (batch - self.first_batch) as usize * self.endpoints as usize
            + endpoint as usize;
        let from = list * self.b as usize;
        &self.told[from..from + self.counts[list] as usize]
    }

    /// Appends the same.
    pub fn told_to(&self, endpoint: u16, batch: u32, into: &mut ArrayVec<Told, 64>)
        requires endpoint { endpoint < self.now.endpoints }
        requires first { self.now.first_batch ≤ batch }
        requires last { batch < self.now.first_batch + self.now.count }
        requires empty { into.old.items ≡ [] }
        ensures { AreToldOf self.now endpoint batch into.new.items }
    {
        let _ = into.try_extend_from_slice(self.told(endpoint, batch));
    }
}

/// Fills the lists of so many batches of `b` slots.
fn put_lists(
    slots: &SlotTable,
    cores: &CoreTable,
    b: u8,
    batches: u16,
    counts: &mut [u8],
    told: &mut [Told],
)
    requires held { batches * b ≤ length slots.now.slots }
    requires lists { batches * slots.now.endpoints ≤ length counts.old }
    requires places { length told.old ≡ length counts.old * b }
    requires most { b ≤ 64 }
    requires few { length slots.now.slots < 65536 }
    requires core_slots { length slots.now.slots ≤ cores.now.slots }
    requires core_endpoints { slots.now.endpoints ≤ cores.now.endpoints }
    requires cores { NamesCores slots.now.slots cores.now }
    ensures { ListsArePut slots.now cores.now b (batches * slots.now.endpoints) counts.new told.new }
{
    for batch in 0..batches {
        put_batch(slots, cores, b, batch, counts, told);
    }
}

/// Fills the list of each endpoint for a batch, where those of the batches before are filled.
fn put_batch(
    slots: &SlotTable,
    cores: &CoreTable,
    b: u8,
    batch: u16,
    counts: &mut [u8],
    told: &mut [Told],
)
    requires held { batch * b + b ≤ length slots.now.slots }
    requires lists { batch * slots.now.endpoints + slots.now.endpoints ≤ length counts.old }
    requires places { length told.old ≡ length counts.old * b }
    requires most { b ≤ 64 }
    requires few { length slots.now.slots < 65536 }
    requires core_slots { length slots.now.slots ≤ cores.now.slots }
    requires core_endpoints { slots.now.endpoints ≤ cores.now.endpoints }
    requires cores { NamesCores slots.now.slots cores.now }
    requires before { ListsArePut slots.now cores.now b (batch * slots.now.endpoints) counts.old told.old }
    ensures { ListsArePut slots.now cores.now b (batch * slots.now.endpoints + slots.now.endpoints) counts.new told.new }
{
    let endpoints = slots.endpoints() as usize;
    let list = batch as usize * endpoints;
    let from = list * b as usize;
    put_slots(
        slots,
        cores,
        batch * u16::from(b),
        b,
        &mut counts[list..list + endpoints],
        &mut told[from..from + endpoints * b as usize],
    );
}

/// Fills the list of each endpoint with what is told of so many slots from this one on.
fn put_slots(
    slots: &SlotTable,
    cores: &CoreTable,
    from: u16,
    b: u8,
    counts: &mut [u8],
    told: &mut [Told],
)
    requires held { from + b ≤ length slots.now.slots }
    requires lists { length counts.old ≡ slots.now.endpoints }
    requires places { length told.old ≡ slots.now.endpoints * b }
    requires most { b ≤ 64 }
    requires few { length slots.now.slots < 65536 }
    requires core_slots { length slots.now.slots ≤ cores.now.slots }
    requires cores { NamesCores slots.now.slots cores.now }
    ensures { ListsTell slots.now cores.now from b b counts.new told.new }
{
    counts.fill(0);
    for offset in 0..b {
        put_slot(slots, cores, from, offset, b, counts, told);
    }
}

/// Tells each endpoint of one slot more, the one at this offset, where its list tells of those before.
fn put_slot(
    slots: &SlotTable,
    cores: &CoreTable,
    from: u16,
    offset: u8,
    b: u8,
    counts: &mut [u8],
    told: &mut [Told],
)
    requires held { from + b ≤ length slots.now.slots }
    requires offset { offset < b }
    requires lists { length counts.old ≡ slots.now.endpoints }
    requires places { length told.old ≡ slots.now.endpoints * b }
    requires most { b ≤ 64 }
    requires few { length slots.now.slots < 65536 }
    requires core_slots { length slots.now.slots ≤ cores.now.slots }
    requires cores { NamesCores slots.now.slots cores.now }
    requires before { ListsTell slots.now cores.now from b offset counts.old told.old }
    ensures { ListsTell slots.now cores.now from b (offset + 1) counts.new told.new }
{
    let slot = from + u16::from(offset);
    let named = cores.row(slot);
    for (endpoint, dst) in slots.row(slot).iter().enumerate() {
        let place = endpoint * b as usize;
        let list = &mut told[place..place + b as usize];
        let core = byte_of(core_at(named, endpoint));
        counts[endpoint] = append(list, counts[endpoint], offset, *dst, core);
    }
}

/// The core at a place of a row; None past its end.
fn core_at(row: &[Option<u16>], at: usize) -> Option<u16>
    ensures { result ≡ slice_index_or row.now at None }
{
    match row.get(at) {
        Some(core) => *core,
        None => None,
    }
}

/// The byte that names a core.
fn byte_of(core: Option<u16>) -> u8
    ensures { IfSome core (λ core. core < 64) → result ≡ unwrap_or core 255 }
{
    match core {
        Some(core) => (core % 256) as u8,
        None => NO_CORE,
    }
}

/// Tells of one slot more behind so many of a list, if it has a destination, and answers how many there are now. The place behind
/// them is written in either case.
fn append(list: &mut [Told], count: u8, offset: u8, dst: Option<u16>, core: u8) -> u8
    requires room { count < length list.old }
    requires most { length list.old ≤ 64 }
    ensures count { result ≤ count + 1 }
    ensures told { take result list.new ≡ take count list.old ++ cons_option (option_map (λ dst. record { offset = offset; core = core; dst = dst }) dst) [] }
{
    list[count as usize] = Told {
        offset,
        core,
        dst: dst.unwrap_or(0),
    };
    count + u8::from(dst.is_some())
}
