//! An evaluation by a list of choices.
ghost use Rattle.std.specs.Prelude.{◌≡◌, ◌+◌, IfOk, IfErr, OnOk, IsErrOf, Err};
ghost use Rattle.keys.specs.Leaves as leaves;
ghost use Rattle.round.specs.Playing.{IsPlaying, Plays};
ghost use Rattle.round.specs.Replays.{Replays, SpendsBudget, KeepsBudget, choice_view, hand_of};
ghost use Rattle.round.specs.declared.choice.Choice.{Choice};
ghost use Rattle.round.specs.PlayCalls.{LacksTurnFor, IsUnspent, HandsBy, CountsChoice, StopsChoice, StopsCall};
ghost use Rattle.round.specs.Counts.{GrowsWithin, CountsRead};
ghost use Rattle.round.specs.declared.stop.Stop.{Stop};

use crate::choice::{Choice, Replayed};
use crate::play::{drop_state, play_back, play_hand};
use crate::rounds::{Round, close_stall};
use crate::stop::Stop;
use filetree::Tree;
use keys::{Key, Rules, Turned};
use node::Graph;
use std::alloc::Global;

/// A round, and the turns that were made and did not come back.
#[derive(Drop)]
pub struct Play<R: Rules> {
    round: Round<R>,
    turns: Vec<Turned<R>>,
}

// Returns how many turns a choice hands out.
fn hands_in(choice: &Choice) -> u64
    ensures { result ≡ hand_of choice.now }
{
    match choice {
        Choice::Hand(_) => 1,
        Choice::Back(_) => 0,
        Choice::Drop(_) => 0,
    }
}

// Makes one choice. Returns whether it was possible.
fn play_choice<R: Rules>(
    play: &mut Play<R>,
    graph: &mut Graph,
    tree: &Tree,
    rules: &mut R,
    left: u64,
    choice: &Choice,
) -> Result<bool, Stop>
    requires { IsPlaying graph.old play.old.round play.old.turns.items }
    ensures playing { OnOk result (IsPlaying graph.new play.new.round play.new.turns.items) }
    ensures plays { IfOk result (Plays R.next (leaves.read tree.now) (choice_view choice.now)
        graph.old graph.new play.old.round play.new.round) }
    ensures budget { LacksTurnFor R.next tree.now choice.now left graph.old play.old.round result }
    ensures unspent { IsUnspent graph.old graph.new (R.turns rules.old) (R.turns rules.new) result }
    ensures hands { HandsBy choice.now play.old play.new result }
    ensures counted { CountsChoice choice.now left (R.turns rules.old) (R.turns rules.new) result }
    ensures at_most { GrowsWithin left (R.turns rules.old) (R.turns rules.new) }
    ensures stopped { StopsChoice R.next tree.now graph.old graph.new play.old.round result }
{
    let Play { round, turns } = play;
    match choice {
        Choice::Hand(key) => play_hand(round, turns, graph, rules, left, key),
        Choice::Back(key) => Ok(play_back(round, turns, graph, tree, key)?),
        Choice::Drop(key) => Ok(drop_state(round, key)),
    }
}

/// Evaluates the roots by these choices, one after another, in at most `budget` turns of the rules. A turn is made when
/// it is handed out. If no turn can be handed out and none is out, the open nodes are closed without a choice. As soon
/// as all roots are settled the result is `Done`, and choices that are left over are not read.
///
/// Returns `NotLegal` for the first choice that was not possible after those before it. Returns `ChoicesEnded` if all
/// were possible and a root is still open. Neither is returned at a stall. Returns `Stop::Budget` if the budget's turns
/// were made and a further one could be handed out at the next choice, and no value then. Returns `Stop::Memory` if an
/// allocation fails, in a turn too. After each of these the graph is consistent for the same history, no record is
/// lost, and only nodes that were settled have new ones. The tree must be the last of the history for which the graph
/// is consistent.
pub fn replay<R: Rules>(
    alloc: Global,
    graph: &mut Graph,
    tree: &Tree,
    roots: Vec<Key>,
    rules: &mut R,
    budget: u64,
    choices: &[Choice],
) -> Result<Replayed, Stop>
    ensures replays { IfOk result (Replays R.next (leaves.read tree.now) roots.items graph.old
        graph.new choices.now) }
    ensures turns { IfOk result (CountsRead choices.now (R.turns rules.old) (R.turns rules.new)) }
    ensures budget { IsErrOf result Stop.Budget → SpendsBudget R.next (leaves.read tree.now)
        roots.items graph.old graph.new choices.now budget }
    ensures unspent { IfOk result (λ told. KeepsBudget R.next (leaves.read tree.now) roots.items
        graph.old choices.now budget) }
    ensures spent { IsErrOf result Stop.Budget → R.turns rules.new ≡ R.turns rules.old + budget }
    ensures at_most { GrowsWithin budget (R.turns rules.old) (R.turns rules.new) }
    ensures stopped { IfErr result (StopsCall R.next tree.now roots.items graph.old graph.new) }
{
    let round: Round<R> = Round::open(alloc, graph, tree, roots)?;
    let turns = Vec::new(alloc);
    let mut play = Play { round, turns };
    let mut left = budget;
    for n in 0..choices.len() {
        if play.round.stalled() {
            return Ok(Replayed::Done(close_stall(play.round, graph)?));
        }
        let choice = &choices[n];
        match play_choice(&mut play, graph, tree, rules, left, choice) {
            Ok(true) => left -= hands_in(choice),
            Ok(false) => return Ok(Replayed::NotLegal(n)),
            Err(stop) => return Err(stop),
        }
    }
    if play.round.stalled() {
        return Ok(Replayed::Done(close_stall(play.round, graph)?));
    }
    Ok(Replayed::ChoicesEnded)
}
