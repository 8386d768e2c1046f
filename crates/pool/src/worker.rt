//! A worker: a thread that takes jobs and answers with their turns until the board is shut.
ghost use Rattle.std.specs.Prelude.{◌≡◌, ◌+◌};
ghost use Rattle.board.specs.Places.{IsHandAtRest, IsNewHand};
ghost use Rattle.pool.specs.Serving.{made_in};

use crate::notifier::Notifiers;
use board::{Board, Hand};
use keys::Rules;
use std::snapshot::Snapshot;
use std::sync::Wait;
use std::thread::Promise;

// What a worker returns.
#[derive(Drop)]
pub(crate) struct WorkerReturn<R: Rules> {
    pub(crate) rules: R,
    pub(crate) hand: Hand<R>,
}

// The promise of a worker: the hand comes back at rest to its board, and the rules have made one turn more for each
// turn that was answered.
#[derive(Drop)]
pub(crate) struct WorkerPromise<'a, R: Rules> {
    pub(crate) board: &'a Board<R>,
    pub(crate) given: Snapshot<R>,
}

impl<'a, R: Rules> Promise<WorkerReturn<R>> for WorkerPromise<'a, R> {
    ghost use Rattle.std.specs.Prelude.{◌≡◌, ◌+◌};
    ghost use Rattle.board.specs.Places.{IsHandAtRest};
    ghost use Rattle.pool.specs.Serving.{made_in};

    ghost kept_by = { λ p b. IsHandAtRest p.board.now.table.shared.table_id b.hand.seat × (R.turns b.rules ≡ R.turns p.given.value + made_in b.hand.seat.me.0.answers) };
}

// Takes a job that no hand has taken yet, makes its turn and answers with it. Returns whether it found one.
pub(crate) fn make_posted<R: Rules>(board: &Board<R>, hand: &mut Hand<R>, rules: &mut R) -> bool
    requires { IsHandAtRest board.now.table.shared.table_id hand.old.seat }
    ensures seat { IsHandAtRest board.now.table.shared.table_id hand.new.seat }
    ensures counted { R.turns rules.new + made_in hand.old.seat.me.0.answers ≡ R.turns rules.old
        + made_in hand.new.seat.me.0.answers }
{
    match board.take(hand) {
        Some(held) => {
            let made = held.make(rules);
            board.answer(hand, made);
            true
        }
        None => false,
    }
}

// Takes jobs and answers with their turns, until the board is shut. It sleeps if it finds none, by the number of the
// worker.
pub(crate) fn worker_loop<R: Rules, W: Wait>(
    rt: &W,
    board: &Board<R>,
    notifiers: &Notifiers,
    mut hand: Hand<R>,
    mut rules: R,
    number: usize,
) -> WorkerReturn<R>
    requires { IsNewHand board.now.table.shared.table_id hand.seat }
    ensures seat { IsHandAtRest board.now.table.shared.table_id result.hand.seat }
    ensures counted { R.turns result.rules ≡ R.turns rules + made_in result.hand.seat.me.0.answers }
{
    for _ in rt.forever() {
        let heard = notifiers.jobs.epoch();
        if board.is_shut(&mut hand) {
            return WorkerReturn { rules, hand };
        }
        if make_posted(board, &mut hand, &mut rules) {
            notifiers.turns.notify();
        } else {
            notifiers.jobs.wait_past(rt, number, heard);
        }
    }
    unreachable!()
}
