ghost use Rattle.std.specs.Prelude.{◌≡◌, ◌<◌};
ghost use Rattle.greedy_rules.specs.Limits.{AreLimits};

use endpoint_bitmaps::FreeMaps;
use greedy_rules::Limits;
use std::process::Abort;
use std::test::Fail;

// A call of `take_lowest` and the slots that it is to answer.
#[derive(Clone, Copy)]
struct Call {
    src: u16,
    dst: u16,
    need: u32,
    slots: u64,
}

// Takes what each asks for, one after the other, of maps of four endpoints.
fn check_asks(rt: &impl Abort, maps: &mut FreeMaps, asks: &[Call])
    requires { maps.old.endpoints ≡ 4 }
    ensures { maps.new.endpoints ≡ 4 }
{
    for ask in asks {
        assert!(rt; ask.src < 4);
        assert!(rt; ask.dst < 4);
        assert_eq!(rt; maps.take_lowest(ask.src, ask.dst, ask.need), ask.slots);
    }
}

fn ask(src: u16, dst: u16, need: u32, slots: u64) -> Call {
    Call {
        src,
        dst,
        need,
        slots,
    }
}

fn one_rack() -> Limits
    ensures { AreLimits result }
{
    Limits {
        hosts: 64,
        cores: 1,
    }
}

#[test]
fn no_endpoint_is_free_before_the_first_reset(rt: HostRuntime) -> Result<(), Fail> {
    let maps = FreeMaps::open(rt.alloc(), 4)?;
    assert_eq!(rt; maps.common(0, 1), 0);
    assert_eq!(rt; maps.common(3, 3), 0);
    Ok(())
}

#[test]
fn a_reset_frees_the_slots_of_the_batch(rt: HostRuntime) -> Result<(), Fail> {
    let mut maps = FreeMaps::open(rt.alloc(), 2)?;
    let batches = [
        (0, 0),
        (1, 1),
        (6, 0b11_1111),
        (63, u64::MAX >> 1),
        (64, u64::MAX),
        (2, 3),
    ];
    for (b, slots) in batches {
        assert!(rt; b <= 64);
        maps.reset(b, one_rack());
        assert_eq!(rt; maps.common(0, 1), slots);
        assert_eq!(rt; maps.common(1, 0), slots);
    }
    Ok(())
}

// Six slots: the lowest are taken first, and an endpoint may send one packet and receive another in a slot.
#[test]
fn the_lowest_common_slots_are_taken(rt: HostRuntime) -> Result<(), Fail> {
    let mut maps = FreeMaps::open(rt.alloc(), 4)?;
    maps.reset(6, one_rack());
    check_asks(
        &rt,
        &mut maps,
        &[
            ask(0, 1, 2, 0b00_0011),
            ask(0, 2, 1, 0b00_0100),
            ask(1, 2, 9, 0b11_1011),
            ask(1, 0, 1, 0b00_0100),
            ask(1, 0, 1, 0),
            ask(2, 0, 0, 0),
            ask(2, 0, 3, 0b00_1011),
            ask(0, 3, 9, 0b11_1000),
        ],
    );
    assert_eq!(rt; maps.common(3, 3), 0b00_0111);
    maps.reset(6, one_rack());
    assert_eq!(rt; maps.common(1, 0), 0b11_1111);
    Ok(())
}

#[test]
fn a_flow_takes_all_slots_of_a_full_batch(rt: HostRuntime) -> Result<(), Fail> {
    let mut maps = FreeMaps::open(rt.alloc(), 4)?;
    maps.reset(64, one_rack());
    check_asks(
        &rt,
        &mut maps,
        &[
            ask(0, 1, 63, u64::MAX >> 1),
            ask(2, 1, u32::MAX, 1 << 63),
            ask(2, 3, u32::MAX, u64::MAX >> 1),
            ask(3, 2, u32::MAX, u64::MAX),
            ask(3, 0, 1, 0),
        ],
    );
    Ok(())
}

// Racks of two endpoints and one core: a packet within a rack takes no link, and of two to or from one rack the second
// waits for the next slot.
#[test]
fn a_rack_has_one_packet_a_slot_for_each_core(rt: HostRuntime) -> Result<(), Fail> {
    let mut maps = FreeMaps::open(rt.alloc(), 4)?;
    let limits = Limits { hosts: 2, cores: 1 };
    maps.reset(3, limits);
    check_asks(
        &rt,
        &mut maps,
        &[
            ask(0, 1, 1, 0b001),
            ask(0, 2, 1, 0b010),
            ask(1, 3, 3, 0b101),
            ask(2, 1, 1, 0b010),
            ask(3, 0, 3, 0b101),
        ],
    );
    Ok(())
}

// Racks of two endpoints and two cores: only the endpoints themselves keep a packet out of a slot. With one core, after that,
// nothing is left of what was taken before.
#[test]
fn a_rack_with_a_core_for_each_endpoint_is_never_full(rt: HostRuntime) -> Result<(), Fail> {
    let mut maps = FreeMaps::open(rt.alloc(), 4)?;
    let limits = Limits { hosts: 2, cores: 2 };
    maps.reset(3, limits);
    check_asks(
        &rt,
        &mut maps,
        &[
            ask(0, 2, 1, 0b001),
            ask(1, 3, 3, 0b111),
            ask(0, 3, 3, 0),
            ask(0, 2, 2, 0b110),
            ask(2, 1, 2, 0b011),
            ask(3, 0, 9, 0b111),
        ],
    );
    let fewer = Limits { hosts: 2, cores: 1 };
    maps.reset(3, fewer);
    check_asks(
        &rt,
        &mut maps,
        &[
            ask(0, 2, 1, 0b001),
            ask(1, 3, 3, 0b110),
            ask(3, 1, 3, 0b111),
        ],
    );
    Ok(())
}
