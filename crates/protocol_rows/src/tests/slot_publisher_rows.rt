ghost use Rattle.std.specs.Prelude.{◌≡◌, ◌<◌, ◌+◌, ◌*◌, ℕ};
ghost use Rattle.path_workers.specs.CoreTable.{core_of, NamesNone};

use arrayvec::ArrayVec;
use fcp_framing::{Down, Told, decode_down};
use greedy_rules::SlotTable;
use path_workers::CoreTable;
use slot_publisher::Publisher;
use std::process::Abort;
use std::test::Fail;

// Lets a source send in a slot in which it sends nothing.
fn send(rt: &impl Abort, slots: &mut SlotTable, slot: u16, source: u16, destination: u16) {
    assert!(rt; slot < slots.slots());
    assert!(rt; source < slots.endpoints());
    assert!(rt; destination < slots.endpoints());
    assert!(rt; slots.to(slot, source).is_none());
    slots.put(slot, source, destination);
}

fn send_all(rt: &impl Abort, slots: &mut SlotTable, packets: &[(u16, u16, u16)]) {
    for (slot, source, destination) in packets {
        send(rt, slots, *slot, *source, *destination);
    }
}

// What a publisher was opened for.
#[derive(Clone, Copy)]
struct Sizes {
    endpoints: u16,
    batches: u16,
    b: u8,
}

const SMALL: Sizes = Sizes {
    endpoints: 4,
    batches: 2,
    b: 3,
};

const LARGEST: Sizes = Sizes {
    endpoints: 256,
    batches: 16,
    b: 64,
};

// Puts a window whose packets have no core, and answers how many batches it has.
fn put(
    rt: &impl Abort,
    publisher: &mut Publisher,
    sizes: Sizes,
    first_batch: u32,
    slots: &SlotTable,
    cores: &CoreTable,
) -> u16
    requires endpoints { publisher.old.endpoints ≡ sizes.endpoints }
    requires batches { publisher.old.batches ≡ sizes.batches }
    requires b { publisher.old.b ≡ sizes.b }
    requires none { (slot : ℕ) → NamesNone (core_of cores.now slot) }
    ensures endpoints { publisher.new.endpoints ≡ sizes.endpoints }
    ensures batches { publisher.new.batches ≡ sizes.batches }
    ensures b { publisher.new.b ≡ sizes.b }
    ensures first { publisher.new.first_batch ≡ first_batch }
    ensures count { publisher.new.count ≡ result }
{
    assert!(rt; slots.endpoints() == sizes.endpoints);
    assert!(rt; 0 < sizes.b);
    assert!(rt; slots.slots() % u16::from(sizes.b) == 0);
    assert!(rt; slots.slots() as usize <= sizes.batches as usize * sizes.b as usize);
    assert!(rt; slots.slots() <= cores.slots());
    assert!(rt; sizes.endpoints <= cores.endpoints());
    publisher.put(first_batch, slots, cores);
    slots.slots() / u16::from(sizes.b)
}

// The endpoint's slots of the batch that begins at this slot, as the table has them.
fn slots_of(
    rt: &impl Abort,
    slots: &SlotTable,
    from: u16,
    b: u8,
    endpoint: u16,
) -> ArrayVec<Told, 64> {
    assert!(rt; endpoint < slots.endpoints());
    let mut told = ArrayVec::new();
    for offset in 0..b {
        let slot = from.saturating_add(u16::from(offset));
        assert!(rt; slot < slots.slots());
        if let Some(dst) = slots.to(slot, endpoint) {
            assert!(rt; !told.is_full());
            told.push(Told {
                offset,
                core: 255,
                dst,
            });
        }
    }
    told
}

// What the publisher tells each endpoint of the batch at this place of the window is what the table has.
fn check_batch(
    rt: &impl Abort,
    publisher: &Publisher,
    slots: &SlotTable,
    first_batch: u32,
    place: u16,
    b: u8,
)
    requires endpoints { publisher.now.endpoints ≡ slots.now.endpoints }
    requires first { publisher.now.first_batch ≡ first_batch }
    requires held { place < publisher.now.count }
{
    assert!(rt; first_batch < 1_000_000);
    let from = place.saturating_mul(u16::from(b));
    for endpoint in 0..slots.endpoints() {
        let mut told = ArrayVec::new();
        publisher.told_to(endpoint, first_batch + u32::from(place), &mut told);
        let expected = slots_of(rt, slots, from, b, endpoint);
        assert_eq!(rt; told.as_slice(), expected.as_slice());
    }
}

// Puts a window, and checks what each endpoint is told of each of its batches.
fn check_window(
    rt: &impl Abort,
    publisher: &mut Publisher,
    sizes: Sizes,
    first_batch: u32,
    slots: &SlotTable,
    cores: &CoreTable,
)
    requires endpoints { publisher.old.endpoints ≡ sizes.endpoints }
    requires batches { publisher.old.batches ≡ sizes.batches }
    requires b { publisher.old.b ≡ sizes.b }
    requires none { (slot : ℕ) → NamesNone (core_of cores.now slot) }
    ensures endpoints { publisher.new.endpoints ≡ sizes.endpoints }
    ensures batches { publisher.new.batches ≡ sizes.batches }
    ensures b { publisher.new.b ≡ sizes.b }
{
    assert!(rt; slots.endpoints() == sizes.endpoints);
    let count = put(rt, publisher, sizes, first_batch, slots, cores);
    for place in 0..count {
        check_batch(rt, publisher, slots, first_batch, place, sizes.b);
    }
}

// Four endpoints and two batches of three slots, then one batch, whose window begins with a later number.
#[test]
fn each_endpoint_is_told_its_slots(rt: HostRuntime) -> Result<(), Fail> {
    let alloc = rt.alloc();
    let mut publisher = Publisher::open(alloc, 4, 2, 3)?;
    let cores = CoreTable::open(alloc, 6, 4)?;
    let mut two = SlotTable::open(alloc, 6, 4)?;
    send_all(
        &rt,
        &mut two,
        &[
            (0, 0, 1),
            (0, 1, 0),
            (1, 0, 3),
            (2, 3, 2),
            (3, 0, 2),
            (4, 2, 0),
            (5, 0, 1),
            (5, 3, 0),
        ],
    );
    check_window(&rt, &mut publisher, SMALL, 8, &two, &cores);
    let mut one = SlotTable::open(alloc, 3, 4)?;
    send_all(&rt, &mut one, &[(0, 3, 0), (2, 0, 2)]);
    check_window(&rt, &mut publisher, SMALL, 10, &one, &cores);
    Ok(())
}

// An allocation to endpoint 0 of batch 8 in a network of four: its first slot to endpoint 1, its third to endpoint 3, by no core.
const ALLOCATION: [u8; 38] = [
    1, 3, 0, 0, 0, 0, 0, 1, 0, 0, 0, 3, 0, 0, 0, 2, 0, 0, 0, 0, 0, 0, 0, 1, 0, 0, 0, 8, 0, 2, 0,
    255, 0, 1, 2, 255, 0, 3,
];

#[test]
fn told_slots_are_those_of_an_allocation(rt: HostRuntime) -> Result<(), Fail> {
    let alloc = rt.alloc();
    let mut publisher = Publisher::open(alloc, 4, 2, 3)?;
    let cores = CoreTable::open(alloc, 3, 4)?;
    let mut slots = SlotTable::open(alloc, 3, 4)?;
    send_all(&rt, &mut slots, &[(0, 0, 1), (1, 2, 0), (2, 0, 3)]);
    check_window(&rt, &mut publisher, SMALL, 8, &slots, &cores);
    let told = slots_of(&rt, &slots, 0, 3, 0);
    let mut down = Down::default();
    assert_eq!(rt; decode_down(&ALLOCATION, 4, 3, &mut down), Ok(()));
    assert_eq!(rt; (down.dst, down.batch), (0, 8));
    assert_eq!(rt; told.as_slice(), down.told.as_slice());
    Ok(())
}

// The last endpoint sends in every slot of the last batch of the largest window.
#[test]
fn the_largest_window_is_told(rt: HostRuntime) -> Result<(), Fail> {
    let alloc = rt.alloc();
    let mut publisher = Publisher::open(alloc, 256, 16, 64)?;
    let cores = CoreTable::open(alloc, 1024, 256)?;
    let mut slots = SlotTable::open(alloc, 1024, 256)?;
    for slot in 960..1024 {
        send(&rt, &mut slots, slot, 255, slot % 255);
    }
    check_window(&rt, &mut publisher, LARGEST, 99_984, &slots, &cores);
    Ok(())
}
