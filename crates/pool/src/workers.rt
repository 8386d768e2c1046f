//! The hands of a pool: those of workers, and those that are left for further ones.
ghost use Rattle.std.specs.Prelude.{◌≡◌, ◌+◌, ◌<◌, ◌≤◌, All, length, OnOk, vec_capacity};
ghost use Rattle.board.specs.Places.{IsHandAtRest, IsNewHand};
ghost use Rattle.board.specs.Rule.{total};
ghost use Rattle.pool.specs.Crews.{IsCrew, SameCrew};
ghost use Rattle.pool.specs.HostStates.{IsHostOf, AreNewHands};
ghost use Rattle.pool.specs.Serving.{made_in, IsShutOnly};

use crate::context::Context;
use crate::worker::{WorkerPromise, WorkerReturn, worker_loop};
use base_types::Memory;
use board::{Board, Hand, Host};
use keys::Rules;
use std::snapshot::Snapshot;
use std::sync::Wait;
use std::thread::{PromisedHandle, Scope, Threads};

// The workers, and the rules and hands that are left for further ones. The last of these is used first.
pub(crate) struct Workers<'s, R: Rules> {
    pub(crate) workers: Vec<PromisedHandle<WorkerReturn<R>, WorkerPromise<'s, R>>>,
    pub(crate) rules: Vec<R>,
    pub(crate) hands: Vec<Hand<R>>,
}

// Spawns a thread for the next hand, if one is left, as the worker with this number. Returns `Memory` if no thread could
// be made; then the board is shut, and the hand is back.
pub(crate) fn spawn_worker<'s, E, R: Rules + Send + Drop + 's, T: Wait + Sync>(
    scope: &Scope<'s, E>,
    context: &Context<'s, R, T>,
    host: &mut Host<R>,
    crew: &mut Workers<'s, R>,
    number: usize,
) -> Result<(), Memory>
    requires host { IsHostOf context.now.board.now host.old }
    requires crew { IsCrew context.now.board.now.table.shared.table_id crew.old }
    requires new { AreNewHands context.now.board.now crew.old.hands.items }
    ensures host { IsHostOf context.now.board.now host.new
        × IsShutOnly host.old.seat.me.0 host.new.seat.me.0 }
    ensures crew { IsCrew context.now.board.now.table.shared.table_id crew.new
        × SameCrew R.turns crew.old crew.new }
    ensures new { OnOk result (AreNewHands context.now.board.now crew.new.hands.items) }
    ensures hired { length crew.new.workers.items ≤ length crew.old.workers.items + 1 }
{
    let Some(own) = crew.rules.pop() else {
        return Ok(());
    };
    let Some(hand) = crew.hands.pop() else {
        unreachable!()
    };
    let Context {
        rt,
        board,
        notifiers,
        tree: _,
        budget: _,
    } = *context;
    let promise = WorkerPromise {
        board,
        given: Snapshot::of(&own),
    };
    let hired = scope.spawn_with(
        promise,
        move || -> WorkerReturn<R>
            requires { IsNewHand board.now.table.shared.table_id hand.seat }
            ensures seat { IsHandAtRest board.entry.now.table.shared.table_id result.hand.seat }
            ensures counted { R.turns result.rules ≡ R.turns own
                + made_in result.hand.seat.me.0.answers }
        { worker_loop(rt, board, notifiers, hand, own, number) },
    );
    match hired {
        Ok(worker) => {
            crew.workers.push_reserved(worker);
            Ok(())
        }
        Err(refused) => {
            board.shut(host);
            let WorkerReturn { rules, hand } = (refused.value)();
            crew.rules.push_reserved(rules);
            crew.hands.push_reserved(hand);
            Err(Memory::told_by_library())
        }
    }
}

// Joins the workers, and returns the rules and the hands, in the order in which they were divided.
pub(crate) fn join_all<'s, R: Rules + Drop, T: Threads>(
    rt: &T,
    board: &Board<R>,
    crew: Workers<'s, R>,
) -> (Vec<R>, Vec<Hand<R>>)
    requires { IsCrew board.now.table.shared.table_id crew }
    ensures as_many { (length result.0.items ≡ length crew.entry.rules.items
        + length crew.entry.workers.items) × (length result.1.items ≡ length result.0.items) }
    ensures hands { All (λ h. IsHandAtRest board.now.table.shared.table_id h.seat) result.1.items }
    ensures room { (length result.0.items < vec_capacity result.0)
        × (length result.1.items < vec_capacity result.1) }
    ensures turns { total R.turns result.0.items + total (λ h. made_in h.seat.me.0.answers)
        crew.entry.hands.items ≡ total R.turns crew.entry.rules.items + total
        (λ w. R.turns w.promise.given.value) crew.entry.workers.items + total
        (λ h. made_in h.seat.me.0.answers) result.1.items }
{
    let Workers {
        mut workers,
        mut rules,
        mut hands,
    } = crew;
    while let Some(worker) = workers.pop() {
        let WorkerReturn { rules: own, hand } = worker.join(rt);
        rules.push_reserved(own);
        hands.push_reserved(hand);
    }
    (rules, hands)
}
