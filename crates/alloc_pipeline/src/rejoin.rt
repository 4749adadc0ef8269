//! The passes of all edges come together again.
ghost use Rattle.std.specs.Prelude.{◌≡◌, ◌<◌, ◌≤◌, ◌+◌, ◌^◌, length, ◌∷◌, ◌++◌, [], List, vec_len, vec_capacity};
ghost use Rattle.ring_core.specs.Windows.{worker_of};
ghost use Rattle.alloc_pipeline.specs.Rings.{AllEnded, AllGoOn, last_list};
ghost use Rattle.alloc_pipeline.specs.declared.player.Player.{Player};
ghost use Rattle.alloc_pipeline.specs.Joined.{AllEven, AllJoined, AllRaised, AllInPlace, givings, takings, turned, crew_of};
ghost use Rattle.alloc_pipeline.specs.Starts.{played_window, MayCollect, MayPlayOut};

use crate::edge;
use crate::ends::take_list;
use crate::play::run;
use crate::player::Player;
use crate::resting::Resting;
use crate::rule::{EdgePass, EdgeQueue};
use fp_edge::Gate;
use greedy_rules::{Batch, DemandList};
use ring_core::Worker;
use std::sync::Wait;
use std::thread::Threads;

/// Joins the taking pass of each edge with the giving one: the first giving pass is that of the edge into worker 0, and the
/// last taking pass that of the edge after the last of the players.
pub(crate) fn join_all(
    queues: &[EdgeQueue],
    players: &mut Vec<Player>,
    first: EdgePass,
    last: EdgePass,
    crew: &mut Vec<Worker>,
    passes: &mut Vec<EdgePass>,
)
    requires even { AllEven queues.now 0 (first ∷ givings players.old.items) (takings players.old.items ++ last ∷ []) }
    requires no_crew { crew.old.items ≡ [] }
    requires no_passes { passes.old.items ≡ [] }
    requires room_crew { vec_len players.old < vec_capacity crew.old }
    requires room_passes { vec_len players.old < vec_capacity passes.old }
    requires few { vec_len players.old < 2 ^ 16 }
    ensures crew { crew.new.items ≡ crew_of players.old.items }
    ensures joined { AllJoined queues.now 0 (first ∷ givings players.old.items) passes.new.items }
    ensures len_crew { vec_len crew.new ≡ vec_len players.old }
    ensures len_passes { vec_len passes.new ≡ vec_len players.old + 1 }
    ensures capacity_crew { vec_capacity crew.new ≡ vec_capacity crew.old }
    ensures capacity_passes { vec_capacity passes.new ≡ vec_capacity passes.old }
    ensures none { players.new.items ≡ [] }
    ensures capacity_players { vec_capacity players.new ≡ vec_capacity players.old }
{
    let Some(player) = players.pop() else {
        let mut pass = first;
        edge::join(&queues[0], &mut pass, last);
        passes.push_reserved(pass);
        return;
    };
    let Player {
        number: _,
        worker,
        taking,
        giving,
        ended: _,
    } = player;
    let number = players.len() + 1;
    let mut pass = giving;
    edge::join(&queues[number], &mut pass, last);
    join_all(queues, players, first, taking, crew, passes);
    passes.push_reserved(pass);
    crew.push_reserved(worker);
}

/// Takes the list that the window leaves, where all workers have ended, and joins the passes of all edges. Edge k's pass is
/// put at place k.
pub(crate) fn collect<R: Wait>(
    rt: &R,
    queues: &[EdgeQueue],
    last: usize,
    players: &mut Vec<Player>,
    list: &mut DemandList,
    resting: &mut Resting,
)
    requires may { MayCollect queues.now (played_window players.old.items) players.old.items last list.old.spare (length resting.old.spare) }
    requires no_crew { resting.old.workers.items ≡ [] }
    requires no_passes { resting.old.passes.items ≡ [] }
    requires room_crew { vec_len players.old ≤ vec_capacity resting.old.workers }
    requires room_passes { vec_len players.old ≤ vec_capacity resting.old.passes }
    ensures list { list.new.items ≡ list.old.items ++ last_list (played_window players.old.items) }
    ensures spare { length list.new.items + list.new.spare ≡ length list.old.items + list.old.spare }
    ensures nodes { length resting.new.spare ≡ length resting.old.spare + length (last_list (played_window players.old.items)) }
    ensures crew { resting.new.workers.items ≡ crew_of players.old.items }
    ensures raised { AllRaised queues.now (played_window players.old.items) 0 (turned players.old.items) resting.new.passes.items }
    ensures none { players.new.items ≡ [] }
    ensures capacity_players { vec_capacity players.new ≡ vec_capacity players.old }
    ensures capacity_crew { vec_capacity resting.new.workers ≡ vec_capacity resting.old.workers }
    ensures capacity_passes { vec_capacity resting.new.passes ≡ vec_capacity resting.old.passes }
{
    take_list(
        rt,
        &queues[last],
        &mut players[last].taking,
        list,
        &mut resting.spare,
    );
    let Some(player) = players.pop() else {
        unreachable!()
    };
    let Player {
        number: _,
        worker,
        taking,
        giving,
        ended: _,
    } = player;
    join_all(
        queues,
        players,
        giving,
        taking,
        &mut resting.workers,
        &mut resting.passes,
    );
    resting.workers.push_reserved(worker);
}

/// Plays a window to its end, takes the list that it leaves, and joins the passes of all edges.
pub(crate) fn play_window<R: Threads + Wait + Sync, G: Gate + Sync>(
    rt: &R,
    gate: &G,
    queues: &[EdgeQueue],
    batches: &[Batch],
    threads: u32,
    players: Vec<Player>,
    list: &mut DemandList,
    resting: &mut Resting,
) -> Vec<Player>
    requires may { MayPlayOut queues.now (played_window players.items) batches.now players.items (worker_of (length queues.now) (length batches.now)) list.old.spare (length resting.old.spare) }
    requires no_crew { resting.old.workers.items ≡ [] }
    requires no_passes { resting.old.passes.items ≡ [] }
    requires room_crew { vec_len players ≤ vec_capacity resting.old.workers }
    requires room_passes { vec_len players ≤ vec_capacity resting.old.passes }
    ensures list { list.new.items ≡ list.old.items ++ last_list (played_window players.items) }
    ensures spare { length list.new.items + list.new.spare ≡ length list.old.items + list.old.spare }
    ensures nodes { length resting.new.spare ≡ length resting.old.spare + length (last_list (played_window players.items)) }
    ensures crew { (ended : List Player) × (AllGoOn queues.now batches.now players.items ended) × (AllEnded batches.now ended) × (resting.new.workers.items ≡ crew_of ended) }
    ensures raised { AllRaised queues.now (played_window players.items) 0 (turned players.items) resting.new.passes.items }
    ensures none { result.items ≡ [] }
    ensures capacity_players { vec_capacity result ≡ vec_capacity players }
    ensures capacity_crew { vec_capacity resting.new.workers ≡ vec_capacity resting.old.workers }
    ensures capacity_passes { vec_capacity resting.new.passes ≡ vec_capacity resting.old.passes }
{
    let mut played = run(rt, gate, queues, batches, threads, players);
    let last = batches.len() % queues.len();
    collect(rt, queues, last, &mut played, list, resting);
    played
}
