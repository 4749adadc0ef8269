ghost use Rattle.std.specs.Prelude.{◌≡◌, ◌<◌, ◌≤◌, ◌+◌, ◌*◌, ◌^◌, ℕ, List, ◌++◌, [], length, true, false, None, Some, IfOk, option_map, slice_get, All, nat_le, nat_lt, if◌then◌else◌};
ghost use Rattle.greedy_rules.specs.Batches.{DemandBatch, entry_of};
ghost use Rattle.greedy_rules.specs.Demands.{need_with, AreBelow, opened};
ghost use Rattle.slot_batches.specs.Pieces.{Part, part_of, piece_count};
ghost use Rattle.slot_batches.specs.Stands.{StageState, stage_endpoints, batch_size_of, first_slot_of, stage_number, IsSameWork, MayBeFed, Stands};
ghost use Rattle.ring_core.specs.Windows.{Window, list_before_stage, slots_of_stage};
ghost use Rattle.ring_core.specs.Streams.{IsPieceAt};
ghost use Rattle.ring_core.specs.Ends.{WorkerEnds, one_taken, one_sent};
ghost use Rattle.ring_core.specs.Workers.{own_stage, IsWorker, MayBegin, IsWorkerWindow, first_ends, HaveBegun, Plays, IsAt, IsSameWorker, IsEndedStage};
ghost use Rattle.ring_core.specs.Openings.{own_openings};
ghost use Rattle.ring_core.specs.Wholes.{room_for, StartsStage};
ghost use Rattle.ring_core.specs.Turns.{piece_to_push, TurnAnswers};
ghost use Rattle.ring_core.specs.declared.turn.Turn.TheVariants.{Done};

use crate::link::Link;
use crate::turn::Turn;
use greedy_rules::{Batch, DemandList, Item, SlotTable, flows_fit_pairs};
use item_chain::Chain;
use no_memory::NoMemory;
use slot_batches::{
    Piece, Stage, early_pieces_are_of_the_list, every_batch_leaves_a_list, lists_may_be_fed,
};
use std::alloc::Global;
use std::marker::Model;

/// A worker of the ring. Of so many workers, number i has the stages i, i and so many more, and so on, a stage for each batch
/// of a window.
#[derive(Drop)]
pub struct Worker {
    number: u16,
    workers: u16,
    endpoints: u16,
    batches: u16,
    b: u8,
    stages: Vec<Stage>,
    place: usize,
    stage: u32,
    taken: u32,
    sent: u32,
    held: Option<Piece>,
}

impl Model for Worker {
    ghost use Rattle.std.specs.Prelude.{option_map};
    ghost use Rattle.slot_batches.specs.Pieces.{part_of};
    ghost use Rattle.ring_core.specs.States.{WorkerState};

    ghost Value = { WorkerState };

    ghost view = { λ w. record { number = w.number; workers = w.workers; endpoints = w.endpoints; batches = w.batches; b = w.b; stages = w.stages.items; place = w.place; stage = w.stage; taken = w.taken; sent = w.sent; held = option_map part_of w.held } };
}

impl Worker {
    /// For windows of at most so many batches, of `b` slots each. No later call takes memory.
    pub fn open(
        alloc: Global,
        number: u16,
        workers: u16,
        endpoints: u16,
        batches: u16,
        b: u8,
    ) -> Result<Worker, NoMemory>
        requires number { number < workers }
        requires endpoints { endpoints ≤ 256 }
        requires b { (0 < b) × (b ≤ 64) }
        ensures worker { IfOk result IsWorker }
        ensures number { IfOk result (λ worker. worker.number ≡ number) }
        ensures workers { IfOk result (λ worker. worker.workers ≡ workers) }
        ensures endpoints { IfOk result (λ worker. worker.endpoints ≡ endpoints) }
        ensures batches { IfOk result (λ worker. worker.batches ≡ batches) }
        ensures b { IfOk result (λ worker. worker.b ≡ b) }
        ensures none { IfOk result (λ worker. All (λ stage. stage.nodes ≡ 0) worker.stages) }
    {
        let mut stages = Vec::new(alloc);
        let mut stage = u32::from(number);
        while stage < u32::from(batches) {
            stages.push(Stage::open(alloc, endpoints, b)?)?;
            stage += u32::from(workers);
        }
        Ok(Worker {
            number,
            workers,
            endpoints,
            batches,
            b,
            stages,
            place: 0,
            stage: u32::from(number),
            taken: 0,
            sent: 0,
            held: None,
        })
    }

    /// Begins a window of these batches, the first of number `first_batch`; `sent` pieces were sent into the edge after the
    /// worker before. Takes a node for each flow that opens in its own stages.
    pub fn begin(&mut self, first_batch: u32, batches: &[Batch], sent: u32, spare: &mut Chain<Item>)
        requires worker { IsWorker self.old }
        requires may { MayBegin self.old first_batch batches.now }
        requires none { All (λ stage. stage.nodes ≡ 0) self.old.stages }
        requires nodes { own_openings (length self.old.stages) batches.now self.old.workers self.old.number ≤ length spare.old }
        ensures plays { (window : Window) →
            IsWorkerWindow self.old first_batch batches.now window →
            sent ≡ (first_ends window self.old.number).sent →
            Plays batches.now (first_ends window self.old.number) self.new }
        ensures same { IsSameWorker self.old self.new }
        ensures worker { IsWorker self.new }
        ensures spare { length spare.new + own_openings (length self.old.stages) batches.now self.old.workers self.old.number ≡ length spare.old }
    {
        self.place = 0;
        self.stage = u32::from(self.number);
        self.taken = 0;
        self.sent = sent;
        self.held = None;
        begin_stages(
            &mut self.stages,
            self.number,
            self.workers,
            self.b,
            first_batch,
            batches,
            spare,
        );
    }

    /// How many pieces were sent into the edge after the worker before the window began, where so many were sent into worker 0.
    pub(crate) fn sent_before(&self, pieces: u32) -> u32
        ensures { result ≡ (if nat_le self.now.workers (self.now.number + 1) then pieces else 0) }
    {
        if u32::from(self.number) + 1 >= u32::from(self.workers) {
            pieces
        } else {
            0
        }
    }

    /// Whether all its stages of so many batches have ended; it has no nodes then.
    pub fn has_ended(&self, batches: usize) -> bool
        ensures value { result ≡ nat_le batches self.now.stage }
        ensures none { (played : List DemandBatch) → (ends : WorkerEnds) →
            Plays played ends self.now →
            batches ≡ length played →
            result ≡ true →
            All (λ stage. stage.nodes ≡ 0) self.now.stages }
    {
        self.stage as usize >= batches
    }

    /// Whether it is at an earlier stage than the other.
    pub(crate) fn is_behind(&self, other: &Worker) -> bool
        ensures { result ≡ nat_lt self.now.stage other.now.stage }
    {
        self.stage < other.stage
    }

    /// Takes a turn: hands a piece on where there is one, and else takes one up; at most one call of the link.
    pub fn turn<L: Link>(&mut self, batches: &[Batch], link: &mut L) -> Turn
        requires plays { Plays batches.now (L.ends link.old) self.old }
        requires ready { L.ready link.old }
        ensures plays { Plays batches.now (L.ends link.new) self.new }
        ensures ready { L.ready link.new × L.stays link.old link.new }
        ensures answer { TurnAnswers batches.now self.old (L.ends link.old) (L.ends link.new) (L.found_empty link.new) (L.found_full link.new) result }
        ensures done { result ≡ Done → self.new ≡ self.old }
        ensures worker { IsSameWorker self.old self.new }
    {
        if self.stage as usize >= batches.len() {
            return Turn::Done;
        }
        match self.next_piece() {
            Some(piece) => self.hand_on(piece, link),
            None => self.take_up(batches, link),
        }
    }

    /// The piece that was refused, or else the one that the present stage gives next.
    fn next_piece(&mut self) -> Option<Piece>
        requires { (batches : List DemandBatch) × (ends : WorkerEnds) × Plays batches ends self.old × (self.old.stage < length batches) }
        ensures piece { (batches : List DemandBatch) → (ends : WorkerEnds) →
            Plays batches ends self.old →
            self.old.stage < length batches →
            option_map part_of result ≡ piece_to_push ends self.old }
        ensures plays { (batches : List DemandBatch) → (ends : WorkerEnds) →
            Plays batches ends self.old →
            self.old.stage < length batches →
            Plays batches ends (record self.new { held = option_map part_of result }) }
        ensures held { self.new.held ≡ None }
        ensures same { IsAt self.old self.new }
        ensures worker { IsSameWorker self.old self.new }
    {
        early_pieces_are_of_the_list();
        every_batch_leaves_a_list();
        if self.held.is_some() {
            return self.held.take();
        }
        self.stages[self.place].emit()
    }

    /// Pushes the piece; a refused one stays with the worker.
    fn hand_on<L: Link>(&mut self, piece: Piece, link: &mut L) -> Turn
        requires plays { (batches : List DemandBatch) × Plays batches (L.ends link.old) (record self.old { held = Some (part_of piece) }) × (self.old.stage < length batches) }
        requires held { self.old.held ≡ None }
        requires ready { L.ready link.old }
        ensures plays { (batches : List DemandBatch) →
            Plays batches (L.ends link.old) (record self.old { held = Some (part_of piece) }) →
            Plays batches (L.ends link.new) self.new }
        ensures ready { L.ready link.new × L.stays link.old link.new }
        ensures answer { (batches : List DemandBatch) →
            Plays batches (L.ends link.old) (record self.old { held = Some (part_of piece) }) →
            TurnAnswers batches self.old (L.ends link.old) (L.ends link.new) (L.found_empty link.new) (L.found_full link.new) result }
        ensures worker { IsSameWorker self.old self.new }
    {
        early_pieces_are_of_the_list();
        every_batch_leaves_a_list();
        let end = piece.end;
        match link.push(piece) {
            Ok(()) => {
                self.count_sent(end);
                Turn::Moved
            }
            Err(refused) => {
                self.held = Some(refused);
                Turn::NoRoom { at: self.sent }
            }
        }
    }

    /// Counts a piece that was sent. With the end of its list the present stage has ended, and the next one follows.
    fn count_sent(&mut self, end: bool)
        requires plays { (batches : List DemandBatch) × (ends : WorkerEnds) × (part : Part) × Plays batches ends (record self.old { held = Some part }) × (part.end ≡ end) }
        requires held { self.old.held ≡ None }
        ensures plays { (batches : List DemandBatch) → (ends : WorkerEnds) → (part : Part) →
            Plays batches ends (record self.old { held = Some part }) →
            part.end ≡ end →
            Plays batches (one_sent ends) self.new }
        ensures worker { IsSameWorker self.old self.new }
    {
        early_pieces_are_of_the_list();
        every_batch_leaves_a_list();
        flows_fit_pairs();
        self.sent += 1;
        if end {
            self.stage += u32::from(self.workers);
            self.place += 1;
        }
    }

    /// Pops a piece of the present stage's list, and feeds it.
    fn take_up<L: Link>(&mut self, batches: &[Batch], link: &mut L) -> Turn
        requires plays { Plays batches.now (L.ends link.old) self.old }
        requires going { self.old.stage < length batches.now }
        requires held { self.old.held ≡ None }
        requires none { piece_to_push (L.ends link.old) self.old ≡ None }
        requires ready { L.ready link.old }
        ensures plays { Plays batches.now (L.ends link.new) self.new }
        ensures ready { L.ready link.new × L.stays link.old link.new }
        ensures answer { TurnAnswers batches.now self.old (L.ends link.old) (L.ends link.new) (L.found_empty link.new) (L.found_full link.new) result }
        ensures worker { IsSameWorker self.old self.new }
    {
        let Some(piece) = link.pop() else {
            return Turn::NoPiece { at: self.taken };
        };
        self.feed(batches, piece);
        Turn::Moved
    }

    /// Feeds the present stage, which gives no piece as it is, the next piece of its list.
    fn feed(&mut self, batches: &[Batch], piece: Piece)
        requires plays { (ends : WorkerEnds) × Plays batches.now ends self.old × (piece_to_push ends self.old ≡ None) × IsPieceAt ends.before ends.taken piece }
        requires going { self.old.stage < length batches.now }
        requires held { self.old.held ≡ None }
        ensures plays { (ends : WorkerEnds) →
            Plays batches.now ends self.old →
            piece_to_push ends self.old ≡ None →
            IsPieceAt ends.before ends.taken piece →
            Plays batches.now (one_taken ends) self.new }
        ensures worker { IsSameWorker self.old self.new }
    {
        lists_may_be_fed();
        every_batch_leaves_a_list();
        flows_fit_pairs();
        self.taken += 1;
        let batch = &batches[self.stage as usize];
        feed_stage(&mut self.stages[self.place], batch, piece);
    }

    /// Serves the whole list of the present stage at once, of which it has taken nothing, and hands over the list that its batch
    /// leaves. The nodes of the stage go back, and the next stage follows.
    pub(crate) fn serve_list(
        &mut self,
        batches: &[Batch],
        items: &[Item],
        left: &mut DemandList,
        spare: &mut Chain<Item>,
    )
        requires starts { (window : Window) × StartsStage batches.now window self.old × (items.now ≡ list_before_stage window self.old.stage) }
        requires going { self.old.stage < length batches.now }
        requires none { left.old.items ≡ [] }
        requires room { self.old.endpoints * self.old.endpoints ≤ left.old.spare }
        requires fits { length spare.old < 2 ^ 63 }
        ensures starts { (window : Window) →
            StartsStage batches.now window self.old →
            items.now ≡ list_before_stage window self.old.stage →
            StartsStage batches.now window self.new × (left.new.items ≡ list_before_stage window (self.old.stage + 1)) }
        ensures stage { self.new.stage ≡ self.old.stage + self.old.workers }
        ensures left_room { room_for left.new ≡ left.old.spare }
        ensures spare { length spare.new + length items.now ≡ length spare.old + length left.new.items }
        ensures worker { IsSameWorker self.old self.new }
    {
        lists_may_be_fed();
        every_batch_leaves_a_list();
        flows_fit_pairs();
        let batch = &batches[self.stage as usize];
        self.stages[self.place].serve_list(batch, items, left, spare);
        self.taken += count_pieces(items);
        self.sent += count_pieces(left.items());
        self.stage += u32::from(self.workers);
        self.place += 1;
    }

    /// The slots of an own stage that has ended.
    pub fn slots(&self, stage: u32) -> &SlotTable
        requires { (batches : List DemandBatch) × (ends : WorkerEnds) × Plays batches ends self.now × IsEndedStage self.now stage }
        ensures slots { (batches : List DemandBatch) → (ends : WorkerEnds) → Plays batches ends self.now → result.now.slots ≡ slots_of_stage ends.before.window stage }
        ensures endpoints { result.now.endpoints ≡ self.now.endpoints }
        ensures count { length result.now.slots ≡ self.now.b }
    {
        self.stages[(stage / u32::from(self.workers)) as usize].slots()
    }
}

/// Begins the batches of a worker's stages, each with its own.
fn begin_stages(
    stages: &mut [Stage],
    number: u16,
    workers: u16,
    b: u8,
    first_batch: u32,
    batches: &[Batch],
    spare: &mut Chain<Item>,
)
    requires workers { number < workers }
    requires some_slots { 0 < b }
    requires few { length batches.now < 2 ^ 16 }
    requires in_range { All (λ stage. All (λ batch. AreBelow (stage_endpoints stage) (opened batch.entries)) batches.now) stages.old }
    requires sizes { All (λ stage. batch_size_of stage ≡ b) stages.old }
    requires numbers { (first_batch + length batches.now) * b + 1 ≤ 2 ^ 32 }
    requires none { All (λ stage. stage.nodes ≡ 0) stages.old }
    requires nodes { own_openings (length stages.old) batches.now workers number ≤ length spare.old }
    ensures begun { (endpoints : ℕ) → All (λ stage. stage_endpoints stage ≡ endpoints) stages.old → HaveBegun endpoints b first_batch batches.now workers number stages.new }
    ensures endpoints { (endpoints : ℕ) → All (λ stage. stage_endpoints stage ≡ endpoints) stages.old → All (λ stage. stage_endpoints stage ≡ endpoints) stages.new }
    ensures sizes { All (λ stage. batch_size_of stage ≡ b) stages.new }
    ensures count { length stages.new ≡ length stages.old }
    ensures spare { length spare.new + own_openings (length stages.old) batches.now workers number ≡ length spare.old }
    ensures idle { (place : ℕ) (state : StageState) → length batches.now ≤ own_stage workers number place → slice_get stages.new place ≡ Some state → state.nodes ≡ 0 }
{
    let mut stage = u32::from(number);
    for own in stages {
        if stage as usize >= batches.len() {
            break;
        }
        let first_slot = (first_batch + stage) * u32::from(b) + 1;
        own.begin(&batches[stage as usize], stage + 1, first_slot, spare);
        stage += u32::from(workers);
    }
}

/// Feeds a stage the items of a piece; with the end of the list it is finished.
fn feed_stage(stage: &mut Stage, batch: &Batch, piece: Piece)
    requires few { length piece.items ≤ 64 }
    requires may { (fed : List Item) × (given : ℕ) × Stands batch.now fed false given stage.old × MayBeFed batch.now.entries (stage_endpoints stage.old) (first_slot_of stage.old) (fed ++ piece.items) }
    requires needs { All (λ item. need_with (entry_of batch.now.entries item.flow) item.need < 2 ^ 32) piece.items }
    ensures work { IsSameWork (stage_endpoints stage.old) (batch_size_of stage.old) (stage_number stage.old) (first_slot_of stage.old) stage.new }
    ensures stands { (fed : List Item) → (given : ℕ) →
        Stands batch.now fed false given stage.old →
        MayBeFed batch.now.entries (stage_endpoints stage.old) (first_slot_of stage.old) (fed ++ piece.items) →
        Stands batch.now (fed ++ piece.items) piece.end given stage.new }
{
    let mut items = piece.items;
    stage.feed_all(batch, &mut items);
    if piece.end {
        stage.finish(batch);
    }
}

/// How many pieces a list of these items has.
pub fn count_pieces(items: &[Item]) -> u32
    requires { length items.now ≤ 65536 }
    ensures { result ≡ piece_count items.now }
{
    (items.len().saturating_sub(1) / 64 + 1) as u32
}
