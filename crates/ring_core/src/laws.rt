ghost use Rattle.ring_core.specs.Cores.{WideEdgesHaveRoom, FewItemsAreLeft};
ghost use Rattle.ring_core.specs.Examples.{AnEmptyListHasOnePiece, TwoWorkersTakeTurns, AWorkerWithoutAStageIsBroughtNothing, SixtyFiveItemsAreTwoPieces, EachPieceTakesATurn};

use greedy_rules::flows_fit_pairs;
use slot_batches::every_batch_leaves_a_list;

/// Small windows, which the definitions compute.
pub fn small_windows()
    ensures empty { AnEmptyListHasOnePiece }
    ensures two_workers { TwoWorkersTakeTurns }
    ensures without_a_stage { AWorkerWithoutAStageIsBroughtNothing }
    ensures two_pieces { SixtyFiveItemsAreTwoPieces }
    ensures turns { EachPieceTakesATurn }
{}

/// Laws over every window that a ring plays: edges with room for 2,048 pieces have room for twice its longest list, and it
/// leaves at most 65,536 items.
pub fn every_window_is_small()
    ensures room { WideEdgesHaveRoom }
    ensures left { FewItemsAreLeft }
{
    every_batch_leaves_a_list();
    flows_fit_pairs();
}
