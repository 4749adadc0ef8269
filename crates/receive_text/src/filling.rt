//! The packets of the endpoints, put into their seats from several threads.
ghost use Rattle.std.specs.Prelude.{◌≡◌, ◌↔◌, true, All, IsTrue, OnOk};
ghost use Rattle.receive_text.specs.declared.filling.Filling.{Filling};
ghost use Rattle.receive_text.specs.Putting.{MayPut, HasFilled, HaveFilled, MayAllPut, with_all};

use front_desk::{Packet, Seat};
use no_memory::NoMemory;
use std::alloc::Global;
use std::thread::{self, Threads};
use trace_text::Trace;

/// At most so many threads put packets.
const THREADS: usize = 4;

/// A seat, and whether there was memory for all packets of its endpoint.
#[derive(Drop)]
pub(crate) struct Filling {
    pub(crate) seat: Seat,
    pub(crate) enough: bool,
}

impl Filling {
    /// Puts the packets of the seat's endpoint.
    fn fill(&mut self, alloc: Global, trace: &Trace)
        requires { MayPut trace.now self.old.seat }
        ensures { HasFilled trace.now self.old self.new }
    {
        self.enough = put_all(&mut self.seat, alloc, trace).is_ok();
    }
}

/// Puts the packets of the seat's endpoint, in the order of rows.
fn put_all(seat: &mut Seat, alloc: Global, trace: &Trace) -> Result<(), NoMemory>
    requires { MayPut trace.now seat.old }
    ensures { OnOk result (seat.new ≡ with_all trace.now seat.old) }
{
    let endpoint = seat.endpoint();
    for at in 0..trace.put_count(endpoint) {
        seat.put(Packet::of(alloc, trace.put(endpoint, at))?);
    }
    Ok(())
}

/// Fills all seats from a few threads, each of which has a share of them.
pub(crate) fn fill_all<R: Threads + Sync>(
    rt: &R,
    alloc: Global,
    trace: &Trace,
    fillings: &mut [Filling],
)
    requires { MayAllPut trace.now fillings.old }
    ensures { HaveFilled trace.now fillings.old fillings.new }
{
    thread::for_each_mut(
        rt,
        fillings,
        THREADS,
        &|_, filling| { filling.fill(alloc, trace) },
    );
}

/// Whether there was memory for all packets.
pub(crate) fn are_enough(fillings: &[Filling]) -> bool
    ensures { IsTrue result ↔ All (λ (filling : Filling). filling.enough ≡ true) fillings.now }
{
    fillings.iter().all(|filling| filling.enough)
}
