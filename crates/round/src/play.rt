//! One choice of a replayed round.
ghost use Rattle.std.specs.Prelude.{◌≡◌, ◌≤◌, ◌+◌, ◌∷◌, ◌++◌, [], List, IfOk, IfErr, OnOk, IsErrOf, IsTrue, Option};
ghost use Rattle.engine_semantics.specs.Choices.{Back, Drop};
ghost use Rattle.keys.specs.Jobs.{Outcome};
ghost use Rattle.keys.specs.declared.key.Key.{Key};
ghost use Rattle.node.specs.Graphs.{GraphView};
ghost use Rattle.keys.specs.declared.value.Value.{Value};
ghost use Rattle.keys.specs.Leaves as leaves;
ghost use Rattle.round.specs.Playing.{IsPlaying, Plays, StopsAfter, HasPlace, HandsMore};
ghost use Rattle.round.specs.PlayCalls.{PlaysHand, LacksTurnForHand, HandsIf, AddsIf, StopsForAll};
ghost use Rattle.round.specs.Counts.{GrowsWithin};
ghost use Rattle.round.specs.declared.stop.Stop.{Stop};

use crate::rounds::Round;
use crate::stop::Stop;
use base_types::Memory;
use filetree::Tree;
use keys::{Key, Rules, Turned};
use node::Graph;

// Returns the place of the turn of a key among those that did not come back.
fn place_of<R: Rules>(turns: &[Turned<R>], key: &Key) -> Option<usize>
    ensures { HasPlace turns.now key.now result }
{
    for at in 0..turns.len() {
        if turns[at].key() == key {
            return Some(at);
        }
    }
    None
}

// Adds the turn to those that did not come back.
fn store_turn<R: Rules>(turns: &mut Vec<Turned<R>>, turned: Turned<R>) -> Result<(), Memory>
    ensures { OnOk result (turns.new.items ≡ turns.old.items ++ turned ∷ []) }
{
    turns.push(turned)?;
    Ok(())
}

/// Hands out the next turn of a key and makes it. Returns whether that was possible. Returns `Stop::Budget` if it was,
/// but the budget is spent, and `Stop::Memory` if an allocation fails, in the turn too.
pub fn play_hand<R: Rules>(
    round: &mut Round<R>,
    turns: &mut Vec<Turned<R>>,
    graph: &Graph,
    rules: &mut R,
    left: u64,
    key: &Key,
) -> Result<bool, Stop>
    requires { IsPlaying graph.now round.old turns.old.items }
    ensures playing { OnOk result (IsPlaying graph.now round.new turns.new.items) }
    ensures plays { PlaysHand R.next key.now graph.now round.old round.new result }
    ensures budget { LacksTurnForHand R.next key.now left graph.now round.old result }
    ensures unspent { IsErrOf result Stop.Budget → R.turns rules.new ≡ R.turns rules.old }
    ensures left { IfOk result (λ went. IsTrue went → 1 ≤ left) }
    ensures hands { IfOk result (HandsIf 1 round.old round.new turns.old.items turns.new.items) }
    ensures counted { IfOk result (AddsIf 1 (R.turns rules.old) (R.turns rules.new)) }
    ensures at_most { GrowsWithin left (R.turns rules.old) (R.turns rules.new) }
    ensures stopped { StopsForAll R.next graph.now graph.now round.old result }
{
    match round.hand_out(graph, key)? {
        None => Ok(false),
        Some(job) => {
            if left == 0 {
                return Err(Stop::Budget);
            }
            let turned = job.make(rules).made()?;
            store_turn(turns, turned)?;
            Ok(true)
        }
    }
}

/// Takes back the turn of a key. Returns whether its job was out.
pub fn play_back<R: Rules>(
    round: &mut Round<R>,
    turns: &mut Vec<Turned<R>>,
    graph: &mut Graph,
    tree: &Tree,
    key: &Key,
) -> Result<bool, Memory>
    requires { IsPlaying graph.old round.old turns.old.items }
    ensures playing { OnOk result (IsPlaying graph.new round.new turns.new.items) }
    ensures plays { IfOk result (Plays R.next (leaves.read tree.now) (Back key.now) graph.old
        graph.new round.old round.new) }
    ensures hands { IfOk result
        (λ went. IsTrue went → HandsMore 0 round.old round.new turns.old.items turns.new.items) }
    ensures stopped { IfErr result
        (λ e. StopsAfter R.next (leaves.read tree.now) graph.old graph.new round.old) }
{
    match place_of(turns.as_slice(), key) {
        None => Ok(false),
        Some(at) => {
            let turned = turns.remove(at);
            round.take_known(graph, tree, turned)?;
            Ok(true)
        }
    }
}

/// Drops the state of a key. Returns whether that was possible.
pub fn drop_state<R: Rules>(round: &mut Round<R>, key: &Key) -> bool
    ensures playing { (graph : GraphView) (turns : List Outcome) → IsPlaying graph round.old turns
        → IsPlaying graph round.new turns }
    ensures plays { (read : Key → Option Value) (graph : GraphView) (turns : List Outcome)
        → IsPlaying graph round.old turns → Plays R.next read (Drop key.now) graph graph round.old
        round.new result }
    ensures hands { (turns : List Outcome) → HandsMore 0 round.old round.new turns turns }
{
    round.drop_state(key)
}
