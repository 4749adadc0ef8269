// The made trace: asks and losses that are drawn from one number.
ghost use Rattle.std.specs.Prelude.{◌≡◌, ◌<◌, ◌≤◌, ◌+◌, ◌*◌, ◌-◌, ◌++◌, IfOk, OnOk, map};
ghost use Rattle.std.specs.List.{flat_map, range_with_len};
ghost use Rattle.clos_topology.specs.Network.{endpoints_of};
ghost use Rattle.trace_text.specs.Made.{next_state, state_after, drawn, made_ask, asks_of_round, loss_of, losses_of_round, made_trace};

use crate::Trace;
use crate::ask::Ask;
use crate::events::{EventRows, GivenFate};
use crate::puts::PutRows;
use clos_topology::Net;
use loss_world::Fate;
use no_memory::NoMemory;
use std::alloc::{AllocError, Global};

const ASKS: u64 = 5;

const MOST_SLOTS: u32 = 20;

const PACKETS_FOR_A_LOSS: u32 = 50;

/// The trace that a number makes: in each round five asks are drawn, and then for each endpoint whether its packets up
/// and down are lost. The generator is this project's own profile; docs/FORMATS.md has it.
pub fn make_trace(alloc: Global, number: u32, net: Net, rounds: u32) -> Result<Trace, NoMemory>
    requires endpoints { 2 ≤ endpoints_of net }
    requires some { 1 ≤ rounds }
    requires few { rounds ≤ 100000 }
    ensures { IfOk result (λ trace. trace ≡ made_trace number net rounds) }
{
    let endpoints = net.endpoints();
    let mut draws = Draws {
        state: u64::from(number),
    };
    let mut asks = Vec::new(alloc);
    let mut events = EventRows::new(alloc);
    for round in 0..rounds {
        add_asks(&mut draws, endpoints, round, &mut asks)?;
        add_losses(&mut draws, endpoints, round, &mut events.fates)?;
    }
    Trace::of(alloc, net, rounds, asks, events, PutRows::new(alloc))
}

/// A linear congruential generator.
#[derive(Debug, Drop)]
struct Draws {
    state: u64,
}

impl Draws {
    /// The next number that is drawn below a bound.
    fn draw(&mut self, below: u32) -> u32
        requires { 0 < below }
        ensures state { self.new.state ≡ next_state self.old.state }
        ensures number { result ≡ drawn (next_state self.old.state) below }
        ensures low { result < below }
    {
        self.state = self
            .state
            .wrapping_mul(6_364_136_223_846_793_005)
            .wrapping_add(1_442_695_040_888_963_407);
        ((self.state >> 33) % u64::from(below)) as u32
    }
}

// The asks of a round.
fn add_asks(
    draws: &mut Draws,
    endpoints: u16,
    round: u32,
    asks: &mut Vec<Ask>,
) -> Result<(), AllocError>
    requires few { endpoints ≤ 256 }
    requires some { 2 ≤ endpoints }
    ensures asks { OnOk result (asks.new.items ≡ asks.old.items ++ asks_of_round endpoints round draws.old.state) }
    ensures state { OnOk result (draws.new.state ≡ state_after 15 draws.old.state) }
{
    for _ in 0..ASKS {
        asks.push(draw_ask(draws, endpoints, round))?;
    }
    Ok(())
}

fn draw_ask(draws: &mut Draws, endpoints: u16, round: u32) -> Ask
    requires few { endpoints ≤ 256 }
    requires some { 2 ≤ endpoints }
    ensures ask { result ≡ made_ask endpoints round draws.old.state }
    ensures state { draws.new.state ≡ state_after 3 draws.old.state }
{
    let src = draws.draw(u32::from(endpoints));
    let other = draws.draw(u32::from(endpoints) - 1);
    let dst = if other >= src { other + 1 } else { other };
    let slots = 1 + draws.draw(MOST_SLOTS);
    Ask {
        round,
        src: src as u16,
        dst: dst as u16,
        slots,
    }
}

// The losses of a round.
fn add_losses(
    draws: &mut Draws,
    endpoints: u16,
    round: u32,
    fates: &mut Vec<GivenFate>,
) -> Result<(), AllocError>
    ensures fates { OnOk result (fates.new.items ≡ fates.old.items ++ losses_of_round endpoints round draws.old.state) }
    ensures state { OnOk result (draws.new.state ≡ state_after (endpoints * 2) draws.old.state) }
{
    for endpoint in 0..endpoints {
        add_loss(draws, round, endpoint, true, fates)?;
        add_loss(draws, round, endpoint, false, fates)?;
    }
    Ok(())
}

// One packet's loss, if it is drawn.
fn add_loss(
    draws: &mut Draws,
    round: u32,
    endpoint: u16,
    up: bool,
    fates: &mut Vec<GivenFate>,
) -> Result<(), AllocError>
    ensures fates { OnOk result (fates.new.items ≡ fates.old.items ++ loss_of round endpoint up draws.old.state) }
    ensures state { draws.new.state ≡ next_state draws.old.state }
{
    if draws.draw(PACKETS_FOR_A_LOSS) == 0 {
        fates.push(GivenFate {
            round,
            endpoint,
            up,
            fate: Fate::Lose,
        })?;
    }
    Ok(())
}
