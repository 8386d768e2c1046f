//! The host: it hands out what is ready, makes what is light, wakes or spawns workers for the rest, and takes back what
//! they made.
ghost use Rattle.std.specs.Prelude.{◌⊎◌, ◌≤◌, length, OnOk};
ghost use Rattle.keys.specs.Leaves as leaves;
ghost use Rattle.pool.specs.Crews.{IsCrew, SameCrew, SameOwn};
ghost use Rattle.pool.specs.Evaluations.{HasBegun, HasCounted, HasEnded};
ghost use Rattle.pool.specs.HostStates.{IsHostOf, AreNewHands, IsNewState, KeepsState};
ghost use Rattle.pool.specs.Serving.{IsShutOnly};

use crate::context::{Context, Evaluation};
use crate::host_state::HostState;
use crate::steps::{Posting, collect_next, post_next};
use crate::worker::make_posted;
use crate::workers::{Workers, spawn_worker};
use base_types::Memory;
use board::Host;
use keys::Rules;
use node::Graph;
use round::{Round, Run, Stop, close_stall, has_ready};
use std::sync::Wait;
use std::thread::{Scope, Threads, available_parallelism};

// Returns whether there is a processor for one worker more, in addition to that of the host. The first worker is always
// worth it, since the host may wait for the system. How many workers there may be is asked for once, and kept.
fn has_processor<T: Threads>(rt: &T, workers: usize, most: &mut Option<usize>) -> bool {
    if workers == 0 {
        return true;
    }
    if let Some(most) = *most {
        return workers < most;
    }
    let count = match available_parallelism(rt) {
        Ok(processors) => processors.get().saturating_sub(1),
        Err(_unknown) => usize::MAX,
    };
    *most = Some(count);
    workers < count
}

// Has a worker take the job that was posted last. It is a new worker if more jobs are out than there are workers, a
// hand is left and a processor too. Otherwise it is one that sleeps.
fn wake_or_spawn<'s, E, R: Rules + Send + Drop + 's, T: Threads + Wait + Sync>(
    scope: &Scope<'s, E>,
    context: &Context<'s, R, T>,
    host: &mut Host<R>,
    crew: &mut Workers<'s, R>,
    most: &mut Option<usize>,
    out: usize,
) -> Result<(), Memory>
    requires host { IsHostOf context.now.board.now host.old }
    requires crew { IsCrew context.now.board.now.table.shared.table_id crew.old }
    requires new { AreNewHands context.now.board.now crew.old.hands.items }
    ensures host { IsHostOf context.now.board.now host.new
        × IsShutOnly host.old.seat.me.0 host.new.seat.me.0 }
    ensures crew { IsCrew context.now.board.now.table.shared.table_id crew.new
        × SameCrew R.turns crew.old crew.new }
    ensures new { OnOk result (AreNewHands context.now.board.now crew.new.hands.items) }
    ensures few { (length crew.new.workers.items ≤ length crew.old.workers.items)
        ⊎ (length crew.new.workers.items ≤ out) }
{
    let workers = crew.workers.len();
    if workers < out && !crew.rules.is_empty() && has_processor(context.rt, workers, most) {
        return spawn_worker(scope, context, host, crew, workers);
    }
    context.notifiers.jobs.notify_for(out, workers);
    Ok(())
}

// Returns whether two threads could make turns at the same time: there are other hands, and the turn of the least key
// is not the only one that can be made or is being made.
fn is_worth_sharing<R: Rules>(round: &Round<R>, has_others: bool, out: usize) -> bool {
    has_others && (out > 0 || round.ready_count() > 1)
}

// Returns which jobs the host posts while this many are out and this many were handed out. Where two threads could make
// turns at the same time, these are the first job of the evaluation, and then those whose turn takes long.
fn posting_now<R: Rules>(round: &Round<R>, has_others: bool, out: usize, handed: u64) -> Posting {
    if !is_worth_sharing(round, has_others, out) {
        Posting::Nothing
    } else if handed == 0 {
        Posting::Every
    } else {
        Posting::Heavy
    }
}

// Continues the evaluation by the turns that the host and the workers of the board make, until no turn can be made any
// more. Then all jobs are back, and also if the budget is spent. The host has made the first turns. It hands out what is
// ready as long as a place is empty, and collects a turn if it cannot. If none is answered, it makes the turn of a job
// that no worker has taken yet, and it waits only if there is none.
pub(crate) fn host_loop<'s, E, R: Rules + Send + Drop + 's, T: Threads + Wait + Sync>(
    scope: &Scope<'s, E>,
    context: &Context<'s, R, T>,
    state: &mut HostState<'s, R>,
    graph: &mut Graph,
    evaluation: Evaluation<R>,
) -> Result<Vec<Run>, Stop>
    requires state { IsNewState context.now.board.now evaluation.first state.old }
    requires evaluation { HasBegun R.next (leaves.read context.now.tree.now) graph.old evaluation
        context.now.budget }
    ensures state { KeepsState R.turns context.now.board.now state.old state.new }
    ensures own { OnOk result (SameOwn R.turns state.old.own state.new.own) }
    ensures ended { HasEnded R.next (leaves.read context.now.tree.now) evaluation graph.new
        context.now.budget result (λ runs. runs.items) }
    ensures counted { HasCounted context.now.budget state.new result }
{
    let Evaluation {
        mut round,
        before: _before,
        first: _first,
    } = evaluation;
    let HostState { host, crew, own } = state;
    let has_others = !crew.rules.is_empty();
    let mut most = None;
    let mut out: usize = 0;
    let mut handed = own.made;
    for _ in context.rt.forever() {
        let heard = context.notifiers.turns.epoch();
        let ready = has_ready(&round);
        if ready && handed < context.budget && out < context.board.capacity() {
            let posting = posting_now(&round, has_others, out, handed);
            handed += 1;
            let is_posted = post_next(&mut round, graph, context, host, own, posting)?;
            if is_posted {
                out += 1;
                wake_or_spawn(scope, context, host, crew, &mut most, out)?;
            }
        } else if out > 0 {
            if collect_next(&mut round, graph, context, host)? {
                out -= 1;
            } else if !make_posted(context.board, &mut own.hand, &mut own.rules) {
                context.notifiers.turns.wait_past(context.rt, heard);
            }
        } else if ready {
            return Err(Stop::Budget);
        } else {
            return Ok(close_stall(round, graph)?);
        }
    }
    unreachable!()
}
