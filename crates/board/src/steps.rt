//! What the host and a hand do at one place.
ghost use Rattle.std.specs.Prelude.{◌≡◌, ◌<◌, [], ◌∷◌, Some, None, true, false};
ghost use mathlib.Core.Option.{some};
ghost use lib.ListN.{get_elem?};
ghost use Rattle.board.specs.declared.view.Entry.TheVariants as entry;
ghost use Rattle.board.specs.declared.view.Stage.TheVariants.{Empty, Held, Answered};
ghost use Rattle.board.specs.Places.{IsAtRest, IsSame, IsFull};
ghost use Rattle.board.specs.Plays.{looked, uses, outs, collects, answers_with};
ghost use Rattle.board.specs.Results.{HasClaimed, HasFoundOther, HasFoundTurn};

use crate::board::{Board, SeatView, Slot};
use crate::table_rule::{Answer, Claim, Clear, LookForTurn, Post, PutJob, SeeReady};
use crate::view::Entry;
use atomic_table::Seat;
use keys::{Job, Rules, Turned};

const EMPTY: u64 = 0;

const READY: u64 = 1;

const HELD: u64 = 2;

const ANSWERED: u64 = 3;

impl<R: Rules> Board<R> {
    // Returns whether the place is empty, by one look. If so, the host has its slot. A look moves neither a job nor a
    // turn.
    pub(crate) fn finds_empty(&self, seat: &mut Seat<Slot<R>, SeatView<R>>, place: usize) -> bool
        requires { (seat.old.table_id ≡ self.now.table.shared.table_id) × (seat.old.id ≡ 0)
            × IsAtRest seat.old.me × (place < self.now.capacity) }
        ensures same { IsSame seat.old seat.new }
        ensures empty { result ≡ true → (get_elem? seat.old.me.0.out place ≡ some None)
            × (seat.new.me ≡ (
              uses (looked seat.old.me.0 place 0) place Empty,
              (place, None)
                  ∷ [],
            )) }
        ensures full { result ≡ false → IsFull seat.old.me place seat.new.me }
    {
        self.table.shared.load::<PutJob>(seat, place) == EMPTY
    }

    // Posts the job at the empty place whose slot the host has.
    pub(crate) fn put_job(&self, seat: &mut Seat<Slot<R>, SeatView<R>>, place: usize, job: Job<R>)
        requires { (seat.old.table_id ≡ self.now.table.shared.table_id) × (seat.old.id ≡ 0)
            × (place < self.now.capacity) × (seat.old.me.0.using ≡ Some (place, Empty))
            × (seat.old.me.1 ≡ (place, None) ∷ []) }
        ensures same { IsSame seat.old seat.new }
        ensures posted { seat.new.me ≡ (outs seat.old.me.0 place (Some job), []) }
    {
        let words = &self.table.shared;
        match words.exchange(seat, place, Some(Entry::Job(job))) {
            None => {}
            Some(_entry) => unreachable!(),
        }
        words.store::<Post>(seat, place, READY);
    }

    // Claims the place if it is ready, and returns whether it was. If so, the hand has its slot. A place that is not
    // ready costs a load, which does not disturb other threads.
    pub(crate) fn try_claim(&self, seat: &mut Seat<Slot<R>, SeatView<R>>, place: usize) -> bool
        requires { (seat.old.table_id ≡ self.now.table.shared.table_id)
            × (seat.old.me.0.is_host ≡ false) × (seat.old.me.0.live ≡ 1) × IsAtRest seat.old.me
            × (place < self.now.capacity) }
        ensures same { IsSame seat.old seat.new }
        ensures claimed { result ≡ true → HasClaimed seat.old.me place seat.new.me }
        ensures none { result ≡ false → HasFoundOther 1 seat.old.me place seat.new.me }
    {
        let words = &self.table.shared;
        let is_ready = words.load::<SeeReady>(seat, place) == READY;
        if !is_ready {
            return false;
        }
        words.compare_exchange::<Claim>(seat, place, READY, HELD) == READY
    }

    // Takes the job out of the slot of the place, which the hand has claimed.
    pub(crate) fn take_out(&self, seat: &mut Seat<Slot<R>, SeatView<R>>, place: usize) -> Job<R>
        requires { (seat.old.table_id ≡ self.now.table.shared.table_id)
            × (place < self.now.capacity)
            × ((job : _) × (seat.old.me.1 ≡ (place, Some (entry.Job job)) ∷ [])) }
        ensures same { IsSame seat.old seat.new }
        ensures taken { (job : _) → seat.old.me.1 ≡ (place, Some (entry.Job job)) ∷ []
            → (result ≡ job) × (seat.new.me ≡ (seat.old.me.0, (place, None) ∷ [])) }
    {
        match self.table.shared.exchange(seat, place, None) {
            Some(Entry::Job(job)) => job,
            Some(Entry::Turn(_turn)) => unreachable!(),
            None => unreachable!(),
        }
    }

    // Answers the job that the hand took at the place.
    pub(crate) fn put_turn(
        &self,
        seat: &mut Seat<Slot<R>, SeatView<R>>,
        place: usize,
        turn: Turned<R>,
    )
        requires { (seat.old.table_id ≡ self.now.table.shared.table_id)
            × (seat.old.me.0.is_host ≡ false) × (seat.old.me.0.live ≡ 1)
            × (place < self.now.capacity) × (seat.old.me.0.using ≡ Some (place, Held turn.asked))
            × (seat.old.me.1 ≡ (place, None) ∷ []) }
        ensures same { IsSame seat.old seat.new }
        ensures answered { seat.new.me ≡ (answers_with seat.old.me.0 (turn ∷ []), []) }
    {
        let words = &self.table.shared;
        match words.exchange(seat, place, Some(Entry::Turn(turn))) {
            None => {}
            Some(_entry) => unreachable!(),
        }
        words.store::<Answer>(seat, place, ANSWERED);
    }

    // Returns whether the place is answered, by one look. If so, the host has its slot.
    pub(crate) fn try_collect(&self, seat: &mut Seat<Slot<R>, SeatView<R>>, place: usize) -> bool
        requires { (seat.old.table_id ≡ self.now.table.shared.table_id) × (seat.old.id ≡ 0)
            × IsAtRest seat.old.me × (place < self.now.capacity) }
        ensures same { IsSame seat.old seat.new }
        ensures found { result ≡ true
            → HasFoundTurn (λ turn. turn.asked) seat.old.me place seat.new.me }
        ensures none { result ≡ false → HasFoundOther 3 seat.old.me place seat.new.me }
    {
        self.table
            .shared
            .load::<LookForTurn<Turned<R>>>(seat, place)
            == ANSWERED
    }

    // Takes the turn out of the slot of the place, which the host has. The place is then empty.
    pub(crate) fn clear(&self, seat: &mut Seat<Slot<R>, SeatView<R>>, place: usize) -> Turned<R>
        requires { (seat.old.table_id ≡ self.now.table.shared.table_id) × (seat.old.id ≡ 0)
            × (place < self.now.capacity)
            × ((turn : _) × (seat.old.me.0.using ≡ Some (place, Answered turn))
            × (seat.old.me.1 ≡ (place, Some (entry.Turn turn)) ∷ [])) }
        ensures same { IsSame seat.old seat.new }
        ensures cleared { (turn : _) → seat.old.me.0.using ≡ Some (place, Answered turn)
            → seat.old.me.1 ≡ (place, Some (entry.Turn turn)) ∷ [] → (result ≡ turn)
            × (seat.new.me ≡ (collects (outs seat.old.me.0 place None) (turn ∷ []), [])) }
    {
        let words = &self.table.shared;
        let found = words.exchange(seat, place, None);
        words.store::<Clear>(seat, place, EMPTY);
        match found {
            Some(Entry::Turn(turn)) => turn,
            Some(Entry::Job(_job)) => unreachable!(),
            None => unreachable!(),
        }
    }
}
