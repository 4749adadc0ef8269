ghost use Rattle.std.specs.Prelude.{◌≡◌, ◌<◌, ◌≤◌, ◌+◌, ◌^◌, ℕ, List, [], ◌∷◌, ◌++◌, length, take, drop, Bool, true, false, None, IfOk, IsSome, All, option_map};
ghost use Rattle.greedy_rules.specs.Batches.{DemandBatch, entry_of};
ghost use Rattle.greedy_rules.specs.Demands.{need_with, AreBelow, opened};
ghost use Rattle.slot_batches.specs.Stands.{stage_endpoints, batch_size_of, first_slot_of, stage_number, stage_slots, left_to_give, IsSameWork, MayBeFed, Stands};
ghost use Rattle.slot_batches.specs.Settled.{settled, slots_filled};
ghost use Rattle.slot_batches.specs.Pieces.{part_of, next_piece};

use crate::array_stage::ArrayStage;
use crate::chains::{BLANK, front, open_nodes, read_all};
use crate::piece::Piece;
use greedy_rules::{Batch, DemandList, Item, SlotTable};
use item_chain::Chain;
use no_memory::NoMemory;
use std::alloc::Global;
use std::marker::Model;

/// A batch of slots, flow by flow: fed a demand list item by item, it fills the slots of the greedy allocation, and gives the
/// list that the batch leaves, in pieces. From `begin` to the last piece it is given the same batch.
#[derive(Drop)]
pub struct Stage {
    alloc: Global,
    arrays: ArrayStage,
    // A node for each item that it was fed and each flow that opens, but for those that it gave; what they hold means nothing.
    loose: Chain<Item>,
}

impl Model for Stage {
    ghost use Rattle.std.specs.Prelude.{length};
    ghost use Rattle.slot_batches.specs.Stands.{StageState};

    ghost Value = { StageState };

    ghost view = { λ s. record { arrays = s.arrays; nodes = length s.loose } };
}

impl Stage {
    /// For batches of `b` slots between so many endpoints. No later call takes memory.
    pub fn open(alloc: Global, endpoints: u16, b: u8) -> Result<Stage, NoMemory>
        requires endpoints { endpoints ≤ 256 }
        requires b { b ≤ 64 }
        ensures endpoints { IfOk result (λ s. stage_endpoints s ≡ endpoints) }
        ensures b { IfOk result (λ s. batch_size_of s ≡ b) }
        ensures nodes { IfOk result (λ s. s.nodes ≡ 0) }
    {
        Ok(Stage {
            alloc,
            arrays: ArrayStage::open(alloc, endpoints, b)?,
            loose: Chain::new(alloc),
        })
    }

    /// Begins the batch with this first slot; `stage` numbers its pieces. Takes a node for each flow that opens.
    pub fn begin(&mut self, batch: &Batch, stage: u32, first_slot: u32, spare: &mut Chain<Item>)
        requires none { self.old.nodes ≡ 0 }
        requires nodes { length (opened batch.now.entries) ≤ length spare.old }
        requires first { 1 ≤ first_slot }
        requires numbers { first_slot + batch_size_of self.old ≤ 2 ^ 32 }
        requires in_range { AreBelow (stage_endpoints self.old) (opened batch.now.entries) }
        ensures work { IsSameWork (stage_endpoints self.old) (batch_size_of self.old) stage first_slot self.new }
        ensures stands { Stands batch.now [] false 0 self.new }
        ensures spare { spare.new ≡ drop (length (opened batch.now.entries)) spare.old }
    {
        self.arrays.begin(batch, stage, first_slot);
        open_nodes(spare, &mut self.loose, batch);
    }

    /// Feeds the item of the front node, and takes the node.
    pub fn feed(&mut self, batch: &Batch, from: &mut Chain<Item>)
        requires some { 0 < length from.old }
        requires may { (fed : List Item) × (given : ℕ) × Stands batch.now fed false given self.old × MayBeFed batch.now.entries (stage_endpoints self.old) (first_slot_of self.old) (fed ++ take 1 from.old) }
        requires need { All (λ item. need_with (entry_of batch.now.entries item.flow) item.need < 2 ^ 32) (take 1 from.old) }
        ensures work { IsSameWork (stage_endpoints self.old) (batch_size_of self.old) (stage_number self.old) (first_slot_of self.old) self.new }
        ensures from { from.new ≡ drop 1 from.old }
        ensures stands { (fed : List Item) → (given : ℕ) →
            Stands batch.now fed false given self.old →
            MayBeFed batch.now.entries (stage_endpoints self.old) (first_slot_of self.old) (fed ++ take 1 from.old) →
            Stands batch.now (fed ++ take 1 from.old) false given self.new }
    {
        let item = front(from);
        from.move_front(&mut self.loose);
        self.arrays.feed(batch, item);
    }

    /// Feeds the items of a piece's nodes, one after the other, and takes the nodes.
    pub fn feed_all(&mut self, batch: &Batch, from: &mut Chain<Item>)
        requires few { length from.old ≤ 64 }
        requires may { (fed : List Item) × (given : ℕ) × Stands batch.now fed false given self.old × MayBeFed batch.now.entries (stage_endpoints self.old) (first_slot_of self.old) (fed ++ from.old) }
        requires needs { All (λ item. need_with (entry_of batch.now.entries item.flow) item.need < 2 ^ 32) from.old }
        ensures work { IsSameWork (stage_endpoints self.old) (batch_size_of self.old) (stage_number self.old) (first_slot_of self.old) self.new }
        ensures from { from.new ≡ [] }
        ensures stands { (fed : List Item) → (given : ℕ) →
            Stands batch.now fed false given self.old →
            MayBeFed batch.now.entries (stage_endpoints self.old) (first_slot_of self.old) (fed ++ from.old) →
            Stands batch.now (fed ++ from.old) false given self.new }
    {
        let mut places = [BLANK; 64];
        let items = &mut places[..from.len()];
        read_all(from, &mut self.loose, items);
        self.arrays.feed_piece(batch, items);
    }

    /// Ends the list: the slots are filled, and all of the list that they leave is settled.
    pub fn finish(&mut self, batch: &Batch)
        requires { (fed : List Item) × (given : ℕ) × Stands batch.now fed false given self.old }
        ensures work { IsSameWork (stage_endpoints self.old) (batch_size_of self.old) (stage_number self.old) (first_slot_of self.old) self.new }
        ensures stands { (fed : List Item) → (given : ℕ) →
            Stands batch.now fed false given self.old →
            Stands batch.now fed true given self.new }
    {
        self.arrays.finish(batch);
    }

    /// The next piece of the list that the batch leaves: as soon as more than 64 items wait, and once the list was ended until
    /// the piece with the end was given; None otherwise.
    pub fn emit(&mut self) -> Option<Piece>
        requires { (batch : DemandBatch) × (fed : List Item) × (finished : Bool) × (given : ℕ) × Stands batch fed finished given self.old }
        ensures piece { (batch : DemandBatch) → (fed : List Item) → (finished : Bool) → (given : ℕ) →
            Stands batch fed finished given self.old →
            option_map part_of result ≡ next_piece (stage_number self.old) finished given (settled batch (first_slot_of self.old) (batch_size_of self.old) fed finished) }
        ensures more { (batch : DemandBatch) → (fed : List Item) → (finished : Bool) → (given : ℕ) →
            Stands batch fed finished given self.old →
            IsSome result →
            Stands batch fed finished (given + 1) self.new }
        ensures none { result ≡ None → self.new ≡ self.old }
        ensures fewer { IsSome result → left_to_give self.new < left_to_give self.old }
        ensures work { IsSameWork (stage_endpoints self.old) (batch_size_of self.old) (stage_number self.old) (first_slot_of self.old) self.new }
        ensures slots { stage_slots self.new ≡ stage_slots self.old }
    {
        self.arrays.emit(self.alloc, &mut self.loose)
    }

    /// Serves a whole list at once: it is fed all of it, and hands over the list that the batch leaves, as a list with the room that
    /// this one had. The nodes that it took go back.
    pub fn serve_list(
        &mut self,
        batch: &Batch,
        items: &[Item],
        left: &mut DemandList,
        spare: &mut Chain<Item>,
    )
        // Six conditions that a caller can break one by one, and a line for each thing that the call leaves.
        requires begun { Stands batch.now [] false 0 self.old }
        requires may { MayBeFed batch.now.entries (stage_endpoints self.old) (first_slot_of self.old) items.now }
        requires needs { All (λ item. need_with (entry_of batch.now.entries item.flow) item.need < 2 ^ 32) items.now }
        requires none { left.old.items ≡ [] }
        requires room { length (settled batch.now (first_slot_of self.old) (batch_size_of self.old) items.now true) ≤ left.old.spare }
        requires fits { length spare.old + self.old.nodes < 2 ^ 64 }
        ensures work { IsSameWork (stage_endpoints self.old) (batch_size_of self.old) (stage_number self.old) (first_slot_of self.old) self.new }
        ensures slots { stage_slots self.new ≡ slots_filled batch.now (first_slot_of self.old) (batch_size_of self.old) items.now true }
        ensures left { left.new.items ≡ settled batch.now (first_slot_of self.old) (batch_size_of self.old) items.now true }
        ensures left_room { length left.new.items + left.new.spare ≡ left.old.spare }
        ensures spare { length spare.new ≡ length spare.old + self.old.nodes }
        ensures nodes { self.new.nodes ≡ 0 }
    {
        self.arrays.serve_list(batch, items, left);
        spare.append(&mut self.loose);
    }

    /// The slots of the batch, counted from 0.
    pub fn slots(&self) -> &SlotTable
        ensures slots { result.now.slots ≡ stage_slots self.now }
        ensures endpoints { result.now.endpoints ≡ stage_endpoints self.now }
        ensures count { length result.now.slots ≡ batch_size_of self.now }
    {
        self.arrays.slots()
    }
}
