//! The first turns of an evaluation, which the host makes before there is a board. While no two turns that take long
//! can be made at the same time, a thread gains nothing.
ghost use Rattle.std.specs.Prelude.{◌≡◌, ◌+◌, ◌≤◌, IfOk, OnOk, OnErr};
ghost use Rattle.keys.specs.Leaves as leaves;
ghost use Rattle.pool.specs.Serving.{StaysTrueSince, IsAfterStop};
ghost use Rattle.round.specs.Here.{IsResting};
ghost use Rattle.round.specs.Rounds.{round_view};

use base_types::Memory;
use filetree::Tree;
use keys::{Key, Rules};
use node::Graph;
use round::{Round, make_turn, next_key};

// Returns whether threads may gain by what can be made now, of which this key is the least: several turns, none of them
// of a look-up or a glob. Before any turn was made, a root's turn counts as well.
fn is_to_share<R: Rules>(round: &Round<R>, key: &Key, made: u64, roots: &[Key]) -> bool {
    match key {
        Key::Module(_) => 1 < round.ready_count(),
        Key::Package(_) => 1 < round.ready_count(),
        _ => made == 0 && 1 < round.ready_count() && roots.contains(key),
    }
}

// Makes the first turns by these rules, as long as there is nothing to share. Returns how many it made.
pub(crate) fn make_first_turns<R: Rules>(
    round: &mut Round<R>,
    graph: &mut Graph,
    tree: &Tree,
    rules: &mut R,
    roots: &[Key],
    budget: u64,
) -> Result<u64, Memory>
    requires { IsResting graph.old round.old (round_view round.old).roots 0 }
    ensures rests { IfOk result (λ made. IsResting graph.new round.new (round_view round.old).roots
        made) }
    ensures counted { IfOk result (λ made. R.turns rules.new ≡ R.turns rules.old + made) }
    ensures within { IfOk result (λ made. made ≤ budget) }
    ensures truth { OnOk result (StaysTrueSince R.next (leaves.read tree.now) graph.old graph.new
        round.old.table round.new.table) }
    ensures stopped { OnErr result (IsAfterStop R.next (leaves.read tree.now) graph.old graph.new
        round.old.table) }
{
    for made in 0..budget {
        let Some(key) = next_key(round)? else {
            return Ok(made);
        };
        if is_to_share(round, &key, made, roots) {
            return Ok(made);
        }
        make_turn(round, graph, tree, rules, &key)?;
    }
    Ok(budget)
}
