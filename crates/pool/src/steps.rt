//! What the host does in one step: it hands a job out and posts it or makes its turn, or takes a turn back.
ghost use Rattle.std.specs.Prelude.{◌+◌, ◌<◌, ◌^◌, IfOk};
ghost use Rattle.keys.specs.Leaves as leaves;
ghost use Rattle.pool.specs.HostStates.{IsHostOf, KeepsHost};
ghost use Rattle.pool.specs.Serving.{AreKnown};
ghost use Rattle.pool.specs.Steps.{HasRoom, HasReady, KeepsOwn, KeepsTruth, ServesHandedOut, ServesCollected};
ghost use Rattle.round.specs.Rounds.{round_view, AgreesWith};

use crate::context::Context;
use crate::host_state::Own;
use base_types::Memory;
use board::Host;
use keys::{Job, Key, Rules};
use node::Graph;
use round::{Round, next_key};

// Which of the jobs that are ready the host posts: none, those whose turn takes long, or every one.
#[derive(Clone, Copy)]
pub(crate) enum Posting {
    Nothing,
    Heavy,
    Every,
}

// Returns whether the turn of a job takes long enough to be worth a place on the board: it parses a file, or evaluates
// it. A module or a package asks for two groups before it does.
fn is_heavy<R: Rules>(job: &Job<R>) -> bool {
    match job.key() {
        Key::Module(_) => job.answers().len() > 1,
        Key::Package(_) => job.answers().len() > 1,
        _ => false,
    }
}

// Returns whether a job is among those that are posted.
fn is_posted<R: Rules>(posting: Posting, job: &Job<R>) -> bool {
    match posting {
        Posting::Nothing => false,
        Posting::Heavy => is_heavy(job),
        Posting::Every => true,
    }
}

// Hands out the job of the least key that is ready. It is posted if it is among those that are, and otherwise the host
// makes its turn. Returns whether it was posted. A key is ready and a place is empty.
pub(crate) fn post_next<R: Rules, T>(
    round: &mut Round<R>,
    graph: &mut Graph,
    context: &Context<'_, R, T>,
    host: &mut Host<R>,
    own: &mut Own<R>,
    posting: Posting,
) -> Result<bool, Memory>
    requires seat { IsHostOf context.now.board.now host.old }
    requires room { HasRoom context.now.board.now host.old }
    requires ready { HasReady graph.old round.old }
    requires few { own.old.made + 1 < 2 ^ 64 }
    ensures host { KeepsHost context.now.board.now host.old host.new }
    ensures own { KeepsOwn R.turns own.old own.new result }
    ensures serving { IfOk result (ServesHandedOut graph.old graph.new round.old round.new host.old
        host.new own.old.made own.new.made) }
    ensures truth { KeepsTruth R.next (leaves.read context.now.tree.now) graph.old graph.new
        round.old round.new result }
{
    let Some(key) = next_key(round)? else {
        unreachable!()
    };
    let Some(job) = round.hand_out(graph, &key)? else {
        unreachable!()
    };
    if is_posted(posting, &job) {
        match context.board.post(host, job) {
            Ok(_) => return Ok(true),
            Err(_) => unreachable!(),
        }
    }
    let turned = job.make(&mut own.rules);
    round.take_known(graph, context.tree, turned)?;
    own.made += 1;
    Ok(false)
}

// Collects a turn and takes it back, if one is answered. Returns whether one was.
pub(crate) fn collect_next<R: Rules, T>(
    round: &mut Round<R>,
    graph: &mut Graph,
    context: &Context<'_, R, T>,
    host: &mut Host<R>,
) -> Result<bool, Memory>
    requires seat { IsHostOf context.now.board.now host.old }
    requires beside { AgreesWith graph.old round.old }
    requires known { AreKnown graph.old (round_view round.old) host.old.seat.me.0 }
    ensures host { KeepsHost context.now.board.now host.old host.new }
    ensures serving { IfOk result (ServesCollected graph.old graph.new round.old round.new host.old
        host.new) }
    ensures truth { KeepsTruth R.next (leaves.read context.now.tree.now) graph.old graph.new
        round.old round.new result }
{
    match context.board.collect(host) {
        None => Ok(false),
        Some((_place, turned)) => {
            round.take_known(graph, context.tree, turned)?;
            Ok(true)
        }
    }
}
