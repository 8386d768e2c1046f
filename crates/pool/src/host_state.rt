//! What the host works with, and how it is made of the seats of a new board.
ghost use Rattle.std.specs.Prelude.{◌≡◌, ◌++◌, ◌∷◌, ◌<◌, [], length, vec_capacity};

use crate::worker::{WorkerPromise, WorkerReturn};
use crate::workers::Workers;
use board::{Hand, Host};
use keys::Rules;
use std::thread::PromisedHandle;

// The seats of a board, and the rules by which each hand makes turns.
#[derive(Drop)]
pub(crate) struct Seats<R: Rules> {
    pub(crate) host: Host<R>,
    pub(crate) hands: Vec<Hand<R>>,
    pub(crate) rules: Vec<R>,
}

// The rules by which the host makes turns, its hand, by which it takes jobs back from the board, and how many turns it
// has made of jobs that were never on the board.
pub(crate) struct Own<R: Rules> {
    pub(crate) rules: R,
    pub(crate) hand: Hand<R>,
    pub(crate) made: u64,
}

// What the host works with: its seat, the workers, and the means by which it makes turns itself.
pub(crate) struct HostState<'s, R: Rules> {
    pub(crate) host: Host<R>,
    pub(crate) crew: Workers<'s, R>,
    pub(crate) own: Own<R>,
}

// Divides the hands and their rules. The host gets the last ones, and has made this many turns. The others are for
// workers, of which there are these so far. There are some hands, and as many rules.
pub(crate) fn divide<'s, R: Rules>(
    seats: Seats<R>,
    workers: Vec<PromisedHandle<WorkerReturn<R>, WorkerPromise<'s, R>>>,
    made: u64,
) -> HostState<'s, R>
    requires some { 0 < length seats.rules.items }
    requires paired { length seats.hands.items ≡ length seats.rules.items }
    ensures rules { (seats.rules.items ≡ result.crew.rules.items ++ result.own.rules ∷ [])
        × (vec_capacity result.crew.rules ≡ vec_capacity seats.rules) }
    ensures hands { (seats.hands.items ≡ result.crew.hands.items ++ result.own.hand ∷ [])
        × (vec_capacity result.crew.hands ≡ vec_capacity seats.hands) }
    ensures host { result.host ≡ seats.host }
    ensures workers { result.crew.workers ≡ workers.entry }
    ensures made { result.own.made ≡ made }
{
    let Seats {
        host,
        mut hands,
        mut rules,
    } = seats;
    let Some(last) = rules.pop() else {
        unreachable!()
    };
    let Some(hand) = hands.pop() else {
        unreachable!()
    };
    let own = Own {
        rules: last,
        hand,
        made,
    };
    let crew = Workers {
        workers,
        rules,
        hands,
    };
    HostState { host, crew, own }
}
