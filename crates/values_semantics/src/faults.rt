//! The codes of the faults that end the evaluation of a file, with their names.

/// There is no package.
pub const NO_PACKAGE: u64 = 1;
/// A file that is not ASCII.
pub const NOT_ASCII: u64 = 2;
/// A file that is not in the grammar.
pub const SYNTAX: u64 = 3;
/// A name that nothing binds.
pub const NOT_BOUND: u64 = 4;
/// A value of the wrong type or shape.
pub const WRONG_TYPE: u64 = 5;
/// A change of a frozen value.
pub const FROZEN: u64 = 6;
/// A change of what a loop iterates over.
pub const ITERATED: u64 = 7;
/// An index or a key that is absent.
pub const ABSENT: u64 = 8;
/// A number out of the range of 64 bits.
pub const OVERFLOW: u64 = 9;
/// A divisor of zero.
pub const ZERO_DIVISOR: u64 = 10;
/// The steps of an evaluation are spent.
pub const STEPS_SPENT: u64 = 11;
/// A container or a call too deep inside others.
pub const TOO_DEEP: u64 = 12;
/// A value that is too large.
pub const TOO_LARGE: u64 = 13;
/// A call of a function that is being called already.
pub const RECURSION: u64 = 14;
/// A text that is not a label, or not the name of a target.
pub const BAD_LABEL: u64 = 15;
/// A module whose file is absent.
pub const NO_MODULE: u64 = 16;
/// A label that crosses the boundary of a package.
pub const BOUNDARY_CROSSED: u64 = 17;
/// A name that a module does not export.
pub const NOT_EXPORTED: u64 = 18;
/// A module that loads itself, directly or by others.
pub const LOAD_CYCLE: u64 = 19;
/// A second target of a name.
pub const TARGET_TWICE: u64 = 20;
/// A text that is not a pattern.
pub const BAD_PATTERN: u64 = 21;
/// A glob without a result where it must have one.
pub const EMPTY_GLOB: u64 = 22;
/// A call that is not allowed where it is.
pub const NOT_ALLOWED: u64 = 23;
/// `fail` was called.
pub const FAIL_CALLED: u64 = 24;
/// Arguments that a function does not take, or a key twice in one dictionary expression.
pub const WRONG_ARGUMENTS: u64 = 25;
/// A second binding of a global.
pub const BOUND_TWICE: u64 = 26;
