//! Whole numbers, of which one is large enough for the negation of the least number of 64 bits.
ghost use Rattle.std.specs.Prelude.{◌≡◌, ◌<◌, neg_ℤ};
ghost use Rattle.values_semantics.specs.Numbers.{floor_over, floor_div, left_over, floor_rem, unless_zero, fitting};
ghost use Rattle.values_operators.specs.Wide.{wide_value, IsNarrow, IsNonzero};
ghost use Rattle.values_heap.specs.View.{Checks};

use values_heap::{Halt, Val};
use values_semantics::faults;

/// A number: the value itself, or -1 less the value.
#[derive(Clone, Copy)]
pub enum Magnitude {
    Positive(u64),
    Negative(u64),
}

// Makes a magnitude of a number.
fn widen(x: i64) -> Magnitude
    ensures value { wide_value result ≡ x }
    ensures narrow { IsNarrow result }
{
    if x >= 0 {
        Magnitude::Positive(x as u64)
    } else {
        Magnitude::Negative((-(x + 1)) as u64)
    }
}

// Makes a magnitude of a number, negated.
fn widen_negated(x: i64) -> Magnitude
    ensures { wide_value result ≡ neg_ℤ x }
{
    if x <= 0 {
        Magnitude::Positive(x.unsigned_abs())
    } else {
        Magnitude::Negative((x - 1) as u64)
    }
}

// Returns the number in 64 bits, or fault 9.
fn narrow(x: Magnitude) -> Result<Val, Halt>
    ensures { Checks (fitting (wide_value x)) result }
{
    match x {
        Magnitude::Positive(n) => {
            if n > i64::MAX as u64 {
                return Err(Halt::Code(faults::OVERFLOW));
            }
            Ok(Val::Int(n as i64))
        }
        Magnitude::Negative(n) => {
            if n > i64::MAX as u64 {
                return Err(Halt::Code(faults::OVERFLOW));
            }
            Ok(Val::Int(-(n as i64) - 1))
        }
    }
}

// Returns the greatest number that is not above x / n.
fn over(x: Magnitude, n: u64) -> Magnitude
    requires { 0 < n }
    ensures { wide_value result ≡ floor_over (wide_value x) n }
{
    match x {
        Magnitude::Positive(m) => Magnitude::Positive(m / n),
        Magnitude::Negative(m) => Magnitude::Negative(m / n),
    }
}

// Returns the remainder of x over n.
fn left_over(x: Magnitude, n: u64) -> u64
    requires { 0 < n }
    ensures value { result ≡ left_over (wide_value x) n }
    ensures below { result < n }
{
    match x {
        Magnitude::Positive(m) => m % n,
        Magnitude::Negative(m) => n - 1 - m % n,
    }
}

/// Evaluates `x // y`: the quotient, rounded towards negative infinity, or fault 10, or 9.
#[tactic(auto, using(crate::proofs::Quotients::divided))]
pub fn divide(x: i64, y: i64) -> Result<Val, Halt>
    ensures { Checks (unless_zero y (floor_div x y)) result }
{
    if y == 0 {
        return Err(Halt::Code(faults::ZERO_DIVISOR));
    }
    narrow(quotient(x, widen(y)))
}

// Returns the quotient by a number that is not 0, rounded towards negative infinity.
fn quotient(x: i64, y: Magnitude) -> Magnitude
    requires nonzero { IsNonzero y }
    requires narrow { IsNarrow y }
    ensures { wide_value result ≡ floor_div x (wide_value y) }
{
    match y {
        Magnitude::Positive(n) => over(widen(x), n),
        Magnitude::Negative(n) => over(widen_negated(x), n + 1),
    }
}

/// Evaluates `x % y`: the remainder, with the sign of y, or fault 10.
#[tactic(auto, using(crate::proofs::Quotients::divided))]
pub fn remainder(x: i64, y: i64) -> Result<Val, Halt>
    ensures { Checks (unless_zero y (floor_rem x y)) result }
{
    if y == 0 {
        return Err(Halt::Code(faults::ZERO_DIVISOR));
    }
    narrow(rest(x, widen(y)))
}

// Returns the remainder over a number that is not 0, with the sign of that number.
fn rest(x: i64, y: Magnitude) -> Magnitude
    requires nonzero { IsNonzero y }
    requires narrow { IsNarrow y }
    ensures { wide_value result ≡ floor_rem x (wide_value y) }
{
    match y {
        Magnitude::Positive(n) => Magnitude::Positive(left_over(widen(x), n)),
        Magnitude::Negative(n) => widen_negated(left_over(widen_negated(x), n + 1) as i64),
    }
}
