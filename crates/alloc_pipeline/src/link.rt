//! The two ends of a worker over two queues.
ghost use Rattle.crossbeam_queue.specs.Passes.{view, IsPassOf};

use crate::edge;
use crate::rule::{EdgePass, EdgeQueue};
use fp_edge::Gate;
use ring_core::Link;
use slot_batches::Piece;
use std::sync::Wait;

/// The taking pass of the edge before a worker and the giving pass of the edge after it. Each piece that it takes is shown at
/// the gate before the worker has it.
#[derive(Drop)]
pub(crate) struct QueueLink<'a, R, G> {
    pub(crate) rt: &'a R,
    pub(crate) gate: &'a G,
    pub(crate) number: u16,
    pub(crate) before: &'a EdgeQueue,
    pub(crate) taking: EdgePass,
    pub(crate) after: &'a EdgeQueue,
    pub(crate) giving: EdgePass,
}

impl<'a, R: Wait, G: Gate> Link for QueueLink<'a, R, G> {
    ghost use Rattle.std.specs.Prelude.{◌≡◌, refl};
    ghost use Rattle.crossbeam_queue.specs.Passes.{view, IsPassOf, ruled_capacity};
    ghost use Rattle.crossbeam_queue.specs.Fifo.{Held};
    ghost use Rattle.alloc_pipeline.specs.declared.parcel.Kind.TheVariants.{Giving, Taking};
    ghost use Rattle.alloc_pipeline.specs.Rules.{giving, taking, into_of};
    ghost use Rattle.alloc_pipeline.specs.Steps.{HeldThen, LeftThen};

    ghost ends = { λ l. record { before = into_of (view l.taking).window; after = into_of (view l.giving).window; taken = (view l.taking).position; sent = (view l.giving).position } };

    ghost ready = { λ l. IsPassOf l.before.now l.taking × IsPassOf l.after.now l.giving × ((view l.taking).kind ≡ Taking) × ((view l.giving).kind ≡ Giving) };

    ghost stays = { λ l m. (m.taking.table_id ≡ l.taking.table_id) × (m.giving.table_id ≡ l.giving.table_id) × ((view m.taking).window ≡ (view l.taking).window) × ((view m.giving).window ≡ (view l.giving).window) × ((view m.giving).moved ≡ (view l.giving).moved) };

    ghost found_empty = { λ l at. Held 0 (LeftThen (taking (view l.taking).window at)) };

    ghost found_full = { λ l at. Held (ruled_capacity l.after.now) (HeldThen (giving (view l.giving).window at (view l.giving).moved)) };

    fn pop(&mut self) -> Option<Piece> {
        let piece = edge::take(self.rt, self.before, &mut self.taking)?;
        self.gate.enter(self.number, piece.stage, piece.from / 64);
        Some(piece)
    }

    fn push(&mut self, piece: Piece) -> Result<(), Piece> {
        edge::give(self.rt, self.after, &mut self.giving, piece)
    }

    ghost stays_same = { λ link. (refl, refl, refl, refl, refl) };
}
