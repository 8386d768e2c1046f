//! Runs of two evaluations in one budget of turns.
ghost use Rattle.std.specs.Prelude.{◌≡◌, ◌≤◌, ◌+◌, ◌++◌, IfOk};
ghost use Rattle.round_nodes.specs.TurnCounts.{turns_of};

use base_types::Memory;
use round::Run;

/// Returns how many turns are left of a budget that these runs did not exceed.
pub(crate) fn turns_left(budget: u64, runs: &[Run]) -> u64
    requires { turns_of runs.now ≤ budget }
    ensures { result + turns_of runs.now ≡ budget }
{
    let mut left = budget;
    for run in runs {
        left -= run.turns;
    }
    left
}

/// Returns the runs of both, in their order.
pub(crate) fn concat_runs(runs: Vec<Run>, more: Vec<Run>) -> Result<Vec<Run>, Memory>
    ensures { IfOk result (λ all. all.items ≡ runs.items ++ more.items) }
{
    let mut all = runs;
    let mut more = more;
    all.append(&mut more)?;
    Ok(all)
}
