//! An evaluation by the node functions, with one thread for each hand.
ghost use Rattle.std.specs.Prelude.{◌≡◌, ◌+◌, ◌≤◌, length, IfOk, IfErr, Ok, Err};
ghost use Rattle.board.specs.Rule.{total};
ghost use Rattle.functions.specs.Next.{next};
ghost use Rattle.keys.specs.Leaves.{read};
ghost use Rattle.round_nodes.specs.TurnCounts.{turns_of};
ghost use Rattle.round.specs.Call.{Calls};

use filetree::Tree;
use functions::LoadRules;
use keys::Key;
use node::Graph;
use round::{Run, Stop};
use std::alloc::Global;
use std::sync::Wait;
use std::thread::Threads;

/// Evaluates the roots over the graph at the files of the tree by one thread for each hand, as `pool::evaluate` does.
pub(crate) fn evaluate_with<R: LoadRules + Send + Drop, T: Threads + Wait + Sync>(
    runtime: &T,
    alloc: Global,
    graph: &mut Graph,
    tree: &Tree,
    roots: &[Key],
    hands: Vec<R>,
    budget: u64,
) -> Result<(Vec<R>, Vec<Run>), Stop>
    requires { (1 ≤ length hands.items) × (length hands.items ≤ 16) }
    ensures law { IfOk result (λ done. Calls next (read tree.now) roots.now graph.old graph.new
        (Ok done.1.items)) }
    ensures stopped { IfErr result (λ e. Calls next (read tree.now) roots.now graph.old graph.new
        (Err e)) }
    ensures counted { IfOk result (λ done. total R.turns done.0.items ≡ total R.turns hands.items
        + turns_of done.1.items) }
    ensures hands { IfOk result (λ done. length done.0.items ≡ length hands.items) }
    ensures within { IfOk result (λ done. turns_of done.1.items ≤ budget) }
{
    pool::evaluate(runtime, alloc, graph, tree, roots, hands, budget)
}
