//! An evaluation by one thread for each hand, one of which is the caller's.
ghost use Rattle.std.specs.Prelude.{◌≡◌, ◌+◌, ◌<◌, ◌≤◌, [], length, vec_capacity, IfOk};
ghost use Rattle.board.specs.Rule.{total};
ghost use Rattle.keys.specs.Leaves as leaves;
ghost use Rattle.round_nodes.specs.TurnCounts.{turns_of};
ghost use Rattle.pool.specs.Evaluations.{FollowsLaw, Stops, RootIsOpen, TurnIsLeft, HasBegun, HasEnded};
ghost use Rattle.pool.specs.HostStates.{AreNewSeats};
ghost use Rattle.pool.specs.Running.{HasRun};

use crate::board_close::close_board;
use crate::context::{Context, Evaluation};
use crate::first_turns::make_first_turns;
use crate::host::host_loop;
use crate::host_state::{HostState, Own, Seats, divide};
use crate::notifier::Notifiers;
use crate::workers::join_all;
use base_types::Memory;
use board::{Board, OpenError};
use filetree::Tree;
use keys::{Key, Rules};
use node::Graph;
use round::{Round, Run, Stop, close_stall, has_ready, share_all};
use std::alloc::Global;
use std::snapshot::Snapshot;
use std::sync::Wait;
use std::thread::{Scope, Threads};
use std::{mem, thread};

// The least number of places of a board.
const FEWEST_PLACES: usize = 8;

// Returns how many jobs may be out at one time. They are four for each hand, so that a hand finds its next job without
// the host, and a look at the board visits few places.
fn places_for(hands: usize) -> usize
    requires { hands ≤ 16 }
    ensures { (0 < result) × (result ≤ 64) }
{
    if hands < 2 { FEWEST_PLACES } else { 4 * hands }
}

// What comes back from the scope of the workers.
struct ScopeResult<R: Rules> {
    graph: Graph,
    seats: Seats<R>,
    made: u64,
    ended: Result<Vec<Run>, Stop>,
}

// Makes a list with memory for this many items.
fn with_room<X>(alloc: Global, count: usize) -> Result<Vec<X>, Memory>
    ensures { IfOk result (λ v. (v.items ≡ []) × (count ≤ vec_capacity v)) }
{
    Ok(Vec::with_capacity(alloc, count)?)
}

// Evaluates by workers of the scope. None of them is still running at the end.
fn host_and_join<'s, E, R: Rules + Send + Drop + 's, T: Threads + Wait + Sync>(
    scope: &Scope<'s, E>,
    context: &Context<'s, R, T>,
    alloc: Global,
    seats: Seats<R>,
    mut graph: Graph,
    evaluation: Evaluation<R>,
) -> ScopeResult<R>
    requires seats { AreNewSeats context.now.board.now seats }
    requires evaluation { HasBegun R.next (leaves.read context.now.tree.now) graph evaluation
        context.now.budget }
    ensures { HasRun R.next R.turns (leaves.read context.now.tree.now) context.now.board.now
        evaluation seats.rules.items context.now.budget result }
{
    let workers = match with_room(alloc, seats.rules.len()) {
        Ok(workers) => workers,
        Err(error) => {
            return ScopeResult {
                graph,
                seats,
                made: evaluation.first,
                ended: Err(Stop::Memory(error)),
            };
        }
    };
    let mut state = divide(seats, workers, evaluation.first);
    let ended = host_loop(scope, context, &mut state, &mut graph, evaluation);
    let HostState {
        mut host,
        crew,
        own,
    } = state;
    context.board.shut(&mut host);
    context.notifiers.jobs.notify_all();
    let (mut rules, mut hands) = join_all(context.rt, context.board, crew);
    let Own {
        rules: last,
        hand,
        made,
    } = own;
    rules.push_reserved(last);
    hands.push_reserved(hand);
    ScopeResult {
        graph,
        seats: Seats { host, hands, rules },
        made,
        ended,
    }
}

// Evaluates as `host_and_join` does, in a scope that ends when the last worker has.
fn in_scope<R: Rules + Send + Drop, T: Threads + Wait + Sync>(
    context: &Context<'_, R, T>,
    alloc: Global,
    seats: Seats<R>,
    graph: Graph,
    evaluation: Evaluation<R>,
) -> ScopeResult<R>
    requires seats { AreNewSeats context.now.board.now seats }
    requires evaluation { HasBegun R.next (leaves.read context.now.tree.now) graph evaluation
        context.now.budget }
    ensures { HasRun R.next R.turns (leaves.read context.now.tree.now) context.now.board.now
        evaluation seats.rules.items context.now.budget result }
{
    thread::scope(
        thread::scope_env(),
        context.rt,
        move |scope| -> ScopeResult<R>
            requires seats { AreNewSeats context.now.board.now seats }
            requires evaluation { HasBegun R.next (leaves.read context.now.tree.now) graph
                evaluation context.now.budget }
            ensures { HasRun R.next R.turns (leaves.read context.entry.now.tree.now)
                context.entry.now.board.now evaluation seats.rules.items
                context.entry.now.budget result }
        { host_and_join(scope, context, alloc, seats, graph, evaluation) },
    )
}

// Continues by workers an evaluation of which the first turns were made. There are rules for each hand.
fn evaluate_with_workers<R: Rules + Send + Drop, T: Threads + Wait + Sync>(
    rt: &T,
    alloc: Global,
    graph: &mut Graph,
    tree: &Tree,
    evaluation: Evaluation<R>,
    rules: Vec<R>,
    budget: u64,
) -> Result<(Vec<R>, Vec<Run>), Stop>
    requires hands { (1 ≤ length rules.items) × (length rules.items ≤ 16) }
    requires evaluation { HasBegun R.next (leaves.read tree.now) graph.old evaluation budget }
    ensures ended { HasEnded R.next (leaves.read tree.now) evaluation graph.new budget
        result (λ done. done.1.items) }
    ensures turns { IfOk result (λ done. evaluation.first + total R.turns done.0.items
        ≡ total R.turns rules.items + turns_of done.1.items) }
    ensures hands { IfOk result (λ done. length done.0.items ≡ length rules.items) }
{
    let (board, host, hands) = match Board::open(alloc, places_for(rules.len()), rules.len()) {
        Ok(made) => made,
        Err(OpenError::Memory(error)) => return Err(Stop::Memory(error)),
        Err(OpenError::Range) => unreachable!(),
    };
    let notifiers = Notifiers::new();
    let context = Context {
        rt,
        board: &board,
        notifiers: &notifiers,
        tree,
        budget,
    };
    let seats = Seats { host, hands, rules };
    let lent = mem::replace(graph, Graph::new(alloc));
    let ScopeResult {
        graph: after,
        seats,
        made: _made,
        ended,
    } = in_scope(&context, alloc, seats, lent, evaluation);
    *graph = after;
    let Seats { host, hands, rules } = seats;
    let _back = close_board(board, host, hands);
    match ended {
        Err(stop) => Err(stop),
        Ok(runs) => Ok((rules, runs)),
    }
}

/// Evaluates the roots over the graph as `evaluate_here` does, in at most `budget` turns, by one thread for each hand.
/// The caller's thread is one of them, and makes the turns that take less time than handing them over. A worker thread
/// is made only if more jobs are out than there are workers, and it has a processor or is the first. No promise depends
/// on the order in which jobs are taken, made and collected.
///
/// Returns `Stop::Budget` if `budget` turns were made, all jobs are back, and a further turn is to be made. Returns
/// `Stop::Memory` if an allocation fails or a thread could not be made. After a stop the graph is as after a stop of
/// `evaluate_here`, and the hands are dropped. Whatever it returns, each job came back, and no thread is still running.
pub fn evaluate<R: Rules + Send + Drop, T: Threads + Wait + Sync>(
    rt: &T,
    alloc: Global,
    graph: &mut Graph,
    tree: &Tree,
    roots: &[Key],
    mut hands: Vec<R>,
    budget: u64,
) -> Result<(Vec<R>, Vec<Run>), Stop>
    requires { (1 ≤ length hands.items) × (length hands.items ≤ 16) }
    ensures law { FollowsLaw R.next (leaves.read tree.now) roots.now graph.old graph.new result }
    ensures stopped { Stops R.next (leaves.read tree.now) roots.now graph.old graph.new result }
    ensures turns { IfOk result (λ done. total R.turns done.0.items ≡ total R.turns hands.items
        + turns_of done.1.items) }
    ensures hands { IfOk result (λ done. length done.0.items ≡ length hands.items) }
    ensures within { IfOk result (λ done. turns_of done.1.items ≤ budget) }
    ensures budget { RootIsOpen R.next (leaves.read tree.now) roots.now graph.old graph.new result }
    ensures spent { TurnIsLeft R.next (leaves.read tree.now) roots.now graph.old graph.new result }
{
    let shared = share_all(alloc, roots)?;
    let entry = Snapshot::of(&*graph);
    let mut round: Round<R> = Round::open(alloc, graph, tree, shared)?;
    let Some(mut own) = hands.pop() else {
        unreachable!()
    };
    let first = make_first_turns(&mut round, graph, tree, &mut own, roots, budget)?;
    hands.push_reserved(own);
    if has_ready(&round) {
        let evaluation = Evaluation {
            round,
            before: entry,
            first,
        };
        return evaluate_with_workers(rt, alloc, graph, tree, evaluation, hands, budget);
    }
    let runs = close_stall(round, graph)?;
    Ok((hands, runs))
}
