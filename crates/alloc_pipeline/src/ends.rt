//! The caller's ends of a ring: the window's list goes into the first edge, and the list that the window leaves comes out of one.
ghost use Rattle.std.specs.Prelude.{◌≡◌, ◌+◌, ◌<◌, ◌≤◌, ◌^◌, ◌++◌, length};
ghost use Rattle.crossbeam_queue.specs.Passes.{view, IsPassOf};
ghost use Rattle.slot_batches.specs.Pieces.{piece_count};
ghost use Rattle.ring_core.specs.Windows.{list_before_stage};
ghost use Rattle.ring_core.specs.Streams.{IsPieceAt, edge_stream};
ghost use Rattle.alloc_pipeline.specs.declared.parcel.Kind.TheVariants.{Giving, Taking};
ghost use Rattle.alloc_pipeline.specs.Rules.{giving, taking, into_of};
ghost use Rattle.alloc_pipeline.specs.Rings.{IsFirstEdge, StandsBeforeLast, last_list};

use crate::edge;
use crate::rule::{EdgePass, EdgeQueue};
use greedy_rules::{DemandList, Item};
use item_chain::Chain;
use ring_core::count_pieces;
use slot_batches::Piece;
use std::alloc::Global;
use std::sync::Wait;
use std::thread;

/// Pushes the next piece of a stream. A refused one is tried again.
fn push<R: Wait>(rt: &R, queue: &EdgeQueue, pass: &mut EdgePass, piece: Piece)
    requires queue { IsPassOf queue.now pass.old }
    requires giving { (view pass.old).kind ≡ Giving }
    requires next { IsPieceAt (into_of (view pass.old).window) (view pass.old).position piece }
    ensures queue { IsPassOf queue.now pass.new }
    ensures given { view pass.new ≡ giving (view pass.old).window ((view pass.old).position + 1) (view pass.old).moved }
{
    let mut next = piece;
    for _ in rt.forever() {
        let Err(refused) = edge::give(rt, queue, pass, next) else {
            break;
        };
        next = refused;
        thread::yield_now();
    }
}

/// Pushes the pieces of the window's list into the first edge, in nodes of those that are spare.
pub(crate) fn give_list<R: Wait>(
    rt: &R,
    alloc: Global,
    queue: &EdgeQueue,
    pass: &mut EdgePass,
    list: &DemandList,
    spare: &mut Chain<Item>,
)
    requires queue { IsPassOf queue.now pass.old }
    requires giving { view pass.old ≡ giving (view pass.old).window 0 (view pass.old).moved }
    requires first { IsFirstEdge (view pass.old).window list.now.items }
    requires few { length list.now.items ≤ 65536 }
    requires nodes { length list.now.items ≤ length spare.old }
    ensures queue { IsPassOf queue.now pass.new }
    ensures given { view pass.new ≡ giving (view pass.old).window (piece_count list.now.items) (view pass.old).moved }
    ensures nodes { length spare.new + length list.now.items ≡ length spare.old }
{
    let items = list.items();
    let count = count_pieces(items);
    for place in 0..count as usize {
        let from = place * 64;
        let end = items.len() <= from + 64;
        let part = &items[from..items.len().min(from + 64)];
        let piece = Piece::of(alloc, 0, from as u32, part, end, spare);
        push(rt, queue, pass, piece);
    }
}

/// Pops the pieces of the list that the window leaves, and appends their items; their nodes are spare then.
pub(crate) fn take_list<R: Wait>(
    rt: &R,
    queue: &EdgeQueue,
    pass: &mut EdgePass,
    list: &mut DemandList,
    spare: &mut Chain<Item>,
)
    requires queue { IsPassOf queue.now pass.old }
    requires taking { (view pass.old).kind ≡ Taking }
    requires last { StandsBeforeLast (view pass.old).window (view pass.old).position }
    requires room { length (last_list (view pass.old).window) ≤ list.old.spare }
    requires fits { length spare.old + length (last_list (view pass.old).window) < 2 ^ 64 }
    ensures queue { IsPassOf queue.now pass.new }
    ensures kind { (view pass.new).kind ≡ Taking }
    ensures window { (view pass.new).window ≡ (view pass.old).window }
    ensures taken { (view pass.new).position ≡ length (edge_stream (into_of (view pass.old).window)) }
    ensures items { list.new.items ≡ list.old.items ++ last_list (view pass.old).window }
    ensures spare { length list.new.items + list.new.spare ≡ length list.old.items + list.old.spare }
    ensures nodes { length spare.new ≡ length spare.old + length (last_list (view pass.old).window) }
{
    for _ in rt.forever() {
        let Some(piece) = edge::take(rt, queue, pass) else {
            thread::yield_now();
            continue;
        };
        let end = piece.end;
        piece.unload(list, spare);
        if end {
            break;
        }
    }
}
