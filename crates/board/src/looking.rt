//! In which order the host and the hands look at places.
ghost use Rattle.std.specs.Prelude.{◌≡◌, ◌<◌, ◌≤◌};
ghost use Rattle.board.specs.Orders.{first_of, hand_order, host_order};

use crate::board::Board;
use keys::Rules;

// Returns the place at which the hand with this number begins to look for a job.
pub(crate) fn first_place(capacity: usize, hands: usize, number: usize) -> usize
    requires { (capacity ≤ 64) × (hands ≤ 16) × (number < hands) }
    ensures { result ≡ first_of capacity hands number }
{
    number * capacity / hands
}

impl<R: Rules> Board<R> {
    // Returns the place of a hand's look with this number, where the hand begins at the place `home`.
    #[inline(always)]
    pub(crate) fn hand_place(&self, home: usize, look: usize) -> usize
        requires { look < self.now.capacity }
        ensures place { result ≡ hand_order self.now.capacity home look }
        ensures near { result < self.now.capacity }
    {
        let left = self.capacity.saturating_sub(home);
        if look < left {
            home + look
        } else {
            look - left
        }
    }

    // Returns the place of the host's look with this number for an empty place.
    #[inline(always)]
    pub(crate) fn host_place(&self, cleared: usize, look: usize) -> usize
        requires { look < self.now.capacity }
        ensures place { result ≡ host_order self.now.capacity cleared look }
        ensures near { result < self.now.capacity }
    {
        if cleared >= self.capacity {
            look
        } else if look == 0 {
            cleared
        } else if look <= cleared {
            look - 1
        } else {
            look
        }
    }
}
