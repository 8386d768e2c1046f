//! Consecutive numbers, held by the first of them and how many there are.
ghost use Rattle.std.specs.Prelude.{◌≡◌, ◌≤◌, ◌<◌, [], length, pos, negsuc, ◌+ℤ◌, ◌≤ℤ◌, slice_get, Some, IfOk, IfSome};
ghost use Rattle.values_semantics.specs.Indexing.{between};
ghost use Rattle.values_semantics.specs.Functions.{numbers};

use crate::object::MAX_LENGTH;
use base_types::Memory;
use values_semantics::Val;

/// Consecutive numbers. A contract sees the list of them.
#[derive(Clone, Copy)]
pub struct Numbers {
    pub first: i64,
    pub count: usize,
    ghost short: { count ≤ 65536 },
    ghost low: { negsuc 9223372036854775807 ≤ℤ first },
    ghost fits: { (first +ℤ pos count) ≤ℤ pos 9223372036854775807 },
}

impl Numbers {
    ghost use Rattle.values_objects.specs.Numbers.{shown};

    /// Returns the `count` numbers from `first` on, if they are at most `MAX_LENGTH` and the one after the last fits
    /// into 64 bits too.
    pub fn new(first: i64, count: usize) -> Option<Numbers>
        ensures { IfSome result (λ n. shown n ≡ numbers count first (pos 1)) }
    {
        if count > MAX_LENGTH {
            return None;
        }
        first.checked_add(count as i64)?;
        Some(Numbers { first, count })
    }

    /// Returns how many numbers there are.
    #[inline(always)]
    pub fn len(&self) -> usize
        ensures number { result ≡ length (shown self.now) }
        ensures short { result ≤ 65536 }
    {
        self.count
    }

    /// Returns the number at a place. There has to be one.
    #[inline(always)]
    pub(crate) fn at(&self, i: usize) -> Val
        requires { i < self.now.count }
        ensures { slice_get (shown self.now) i ≡ Some result }
    {
        Val::Int(number_after(self.first, i))
    }

    /// Returns the number at a place, if there are so many.
    #[inline(always)]
    pub(crate) fn get(&self, i: usize) -> Option<Val>
        ensures { result ≡ slice_get (shown self.now) i }
    {
        if i < self.count {
            Some(self.at(i))
        } else {
            None
        }
    }

    /// Returns the numbers between two places.
    pub(crate) fn between(&self, from: usize, to: usize) -> Numbers
        requires first { from ≤ self.now.count }
        requires end { to ≤ self.now.count }
        ensures { shown result ≡ between (shown self.now) from to }
    {
        Numbers {
            first: number_after(self.first, from),
            count: to.saturating_sub(from),
        }
    }

    /// Returns the numbers as values, in a list that is empty.
    pub(crate) fn copy_into(&self, empty: Vec<Val>) -> Result<Vec<Val>, Memory>
        requires { empty.items ≡ [] }
        ensures { IfOk result (λ v. v.items ≡ shown self.now) }
    {
        let mut all = empty;
        all.reserve_exact(self.count)?;
        for i in 0..self.count {
            all.push(self.at(i))?;
        }
        Ok(all)
    }
}

// Returns the number that is `i` greater than another.
#[inline(always)]
fn number_after(first: i64, i: usize) -> i64
    requires short { i ≤ 65536 }
    requires fits { (first +ℤ pos i) ≤ℤ pos 9223372036854775807 }
    ensures { result ≡ first +ℤ pos i }
{
    first + i as i64
}
