//! How a board is closed, and what is left of it.
ghost use Rattle.std.specs.Prelude.{◌≡◌, ◌+◌, ◌≤◌, true, All, length, drop, Some, MatchOption};
ghost use Rattle.core.specs.Mem.Slots.{slots_items, slots_len};
ghost use Rattle.board.specs.Rule.{total};
ghost use Rattle.board.specs.Places.{IsHostAtRest, IsHandAtRest, IsLeft, AllNone, count_in};
ghost use Rattle.board.specs.Results.{KeepsAnswers, IsTakenUpTo};
ghost use mathlib.Core.Option.{some};
ghost use lib.ListN.{get_elem?};

use crate::board::{Board, Hand, Host, Slot};
use crate::table_rule::Retire;
use crate::view::Entry;
use atomic_table::Closed;
use keys::{Job, Rules, Turned};
use std::alloc::Global;

/// What was not collected, in the order of places. It has no `Drop`, so it ends in `free`.
pub struct Left<R: Rules> {
    closed: Closed<Slot<R>, Global>,
    next: usize,
}

// Returns how much was left at a place, and drops it.
fn count_of<R: Rules>(entry: Slot<R>) -> usize
    ensures count { result ≡ count_in entry }
    ensures few { result ≤ 1 }
{
    match entry {
        None => 0,
        Some(_entry) => 1,
    }
}

impl<R: Rules> Board<R> {
    /// Closes the board: returns what was not collected, each job once, as a job or as its turn, in the order of
    /// places. The host and all hands must be back, and no hand may have a job. It never waits and allocates nothing.
    pub fn close(self, host: Host<R>, mut hands: Vec<Hand<R>>) -> Left<R>
        requires host { IsHostAtRest self.table.shared.table_id host.seat }
        requires hands { (host.seat.me.0.hands ≡ length hands.items)
            × All (λ h. IsHandAtRest self.table.shared.table_id h.seat) hands.items }
        ensures all { (result.next ≡ 0) × (slots_len result.closed.slots ≡ self.capacity)
            × IsTakenUpTo result.closed.slots 0 }
        ensures left { IsLeft (λ turn. turn.asked) host.seat.me.0
            (slots_items result.closed.slots) }
        ensures answers { KeepsAnswers host.seat.me.0 hands.items (λ h. h.seat.me.0)
            (slots_items result.closed.slots) }
        ensures shut { All (λ h. h.seat.me.0.shut ≡ true → host.seat.me.0.shut ≡ true) hands.items }
    {
        let Host { mut seat, .. } = host;
        while let Some(hand) = hands.pop() {
            let Hand { seat: other, .. } = hand;
            self.table.shared.join_seat::<Retire>(&mut seat, other);
        }
        hands.destroy_empty();
        let Board { table, capacity: _ } = self;
        Left {
            closed: table.close_with(seat),
            next: 0,
        }
    }
}

impl<R: Rules> Left<R> {
    /// Takes the job or the turn that is left at the next place that has one, with the place.
    pub fn next(&mut self) -> Option<(usize, Entry<Job<R>, Turned<R>>)>
        requires { IsTakenUpTo self.old.closed.slots self.old.next }
        ensures same { (slots_items self.new.closed.slots ≡ slots_items self.old.closed.slots)
            × (slots_len self.new.closed.slots ≡ slots_len self.old.closed.slots)
            × (self.old.next ≤ self.new.next) }
        ensures rest { IsTakenUpTo self.new.closed.slots self.new.next }
        ensures found { MatchOption result
            (AllNone (slots_items self.old.closed.slots) self.old.next
            (slots_len self.old.closed.slots)) (λ left. (self.new.next ≡ left.0 + 1)
            × (get_elem? (slots_items self.old.closed.slots) left.0 ≡ some (Some left.1))
            × AllNone (slots_items self.old.closed.slots) self.old.next left.0) }
    {
        for place in self.next..self.closed.slot_count() {
            self.next = place + 1;
            if let Some(entry) = self.closed.take(place) {
                return Some((place, entry));
            }
        }
        None
    }

    /// Drops what has not been taken from it yet, and returns how much that was.
    pub fn free(self) -> usize
        requires { IsTakenUpTo self.closed.slots self.next }
        ensures { result ≡ total count_in (drop self.next (slots_items self.closed.slots)) }
    {
        let Left { mut closed, next } = self;
        let mut count = 0;
        for place in next..closed.slot_count() {
            count += count_of::<R>(closed.take(place));
        }
        closed.free();
        count
    }
}
