//! Lists of bytes or members, apart from any heap.
ghost use Rattle.std.specs.Prelude.{◌≡◌, ◌≤◌, ◌*◌, ◌++◌, [], not, length, IfOk, IfSome, OnOk};
ghost use Rattle.values_semantics.specs.Heap.{is_sized};
ghost use Rattle.values_semantics.specs.Operators.{repeated, times};
ghost use Rattle.values_semantics.specs.Indexing.{place, member, bound, bound_or, cut, between};
ghost use Rattle.values_objects.specs.ListSizes.{SizedAs, CutAs};

use crate::halt::Halt;
use crate::object::MAX_LENGTH;
use base_types::Memory;
use std::alloc::Global;
use values_semantics::{Val, faults};

// From this many copies of a short list on, blocks of this many copies are added as a whole.
const BLOCK: usize = 256;

// A list with fewer members is short.
const SHORT: usize = 16;

/// Returns one list after the other, or fault 13.
pub fn concat<T: Copy>(alloc: Global, a: &[T], b: &[T]) -> Result<Vec<T>, Halt>
    ensures { SizedAs (a.now ++ b.now) result }
{
    concat_into(Vec::new(alloc), a, b)
}

/// Returns one list after the other, in a list that is empty, or fault 13.
pub(crate) fn concat_into<T: Copy>(empty: Vec<T>, a: &[T], b: &[T]) -> Result<Vec<T>, Halt>
    requires { empty.items ≡ [] }
    ensures { SizedAs (a.now ++ b.now) result }
{
    if a.len() > MAX_LENGTH || b.len() > MAX_LENGTH - a.len() {
        return Err(Halt::Code(faults::TOO_LARGE));
    }
    let mut all = empty;
    all.reserve_exact(a.len() + b.len())?;
    all.extend_from_slice(a)?;
    all.extend_from_slice(b)?;
    Ok(all)
}

/// Returns a list repeated `n` times, or fault 13; a negative number repeats nothing.
pub fn repeated<T: Copy>(alloc: Global, a: &[T], n: i64) -> Result<Vec<T>, Halt>
    ensures { SizedAs (repeated a.now n) result }
{
    repeated_into(alloc, Vec::new(alloc), a, n)
}

/// Returns a list repeated `n` times, in a list that is empty, or fault 13; a negative number repeats nothing.
pub(crate) fn repeated_into<T: Copy>(
    alloc: Global,
    empty: Vec<T>,
    a: &[T],
    n: i64,
) -> Result<Vec<T>, Halt>
    requires { empty.items ≡ [] }
    ensures { SizedAs (repeated a.now n) result }
{
    if n <= 0 {
        return Ok(Vec::new(alloc));
    }
    times_sized(alloc, empty, a, n as usize)
}

// Returns a list repeated `n` times, in a list that is empty, or fault 13.
#[tactic(auto, using(crate::proofs::Times::times_empty, crate::proofs::Times::times_length))]
fn times_sized<T: Copy>(alloc: Global, empty: Vec<T>, a: &[T], n: usize) -> Result<Vec<T>, Halt>
    requires { empty.items ≡ [] }
    ensures { SizedAs (times n a.now) result }
{
    if a.is_empty() {
        return Ok(Vec::new(alloc));
    }
    if is_too_long(n, a.len()) {
        return Err(Halt::Code(faults::TOO_LARGE));
    }
    let all = times(alloc, empty, a, n)?;
    Ok(all)
}

// Returns whether `n` times a length is too long.
fn is_too_long(n: usize, len: usize) -> bool
    ensures { result ≡ not (is_sized (n * len)) }
{
    match n.checked_mul(len) {
        Some(total) => total > MAX_LENGTH,
        None => true,
    }
}

// Returns a list repeated `n` times, in a list that is empty. If the list is short and `n` is large, blocks of many
// copies are added.
#[tactic(auto, using(crate::proofs::Times::times_blocks))]
fn times<T: Copy>(alloc: Global, empty: Vec<T>, a: &[T], n: usize) -> Result<Vec<T>, Memory>
    requires { empty.items ≡ [] }
    ensures { IfOk result (λ v. v.items ≡ times n a.now) }
{
    let mut all = empty;
    all.reserve_exact(n.saturating_mul(a.len()))?;
    if n < BLOCK || a.len() >= SHORT {
        add_times(&mut all, a, n)?;
        return Ok(all);
    }
    let mut block = Vec::new(alloc);
    add_times(&mut block, a, BLOCK)?;
    add_times(&mut all, block.as_slice(), n / BLOCK)?;
    add_times(&mut all, a, n % BLOCK)?;
    Ok(all)
}

// Adds a list `n` times.
fn add_times<T: Copy>(all: &mut Vec<T>, a: &[T], n: usize) -> Result<(), Memory>
    ensures { OnOk result (all.new.items ≡ all.old.items ++ times n a.now) }
{
    for _i in 0..n {
        all.extend_from_slice(a)?;
    }
    Ok(())
}

/// Returns the place that an index names among `len` members. A negative index counts from the end.
#[inline(always)]
pub fn place(i: i64, len: usize) -> Option<usize>
    ensures { result ≡ place i len }
{
    if i >= 0 {
        let at = i as usize;
        if at < len { Some(at) } else { None }
    } else {
        let back = (-(i + 1)) as usize;
        if back < len {
            Some(len - 1 - back)
        } else {
            None
        }
    }
}

/// Returns the member at an index.
pub fn member<T: Copy>(a: &[T], i: i64) -> Option<T>
    ensures { result ≡ member a.now i }
{
    match place(i, a.len()) {
        Some(at) => a.get(at).copied(),
        None => None,
    }
}

/// Returns where a bound cuts `len` members.
pub fn slice_bound(i: i64, len: usize) -> usize
    ensures value { result ≡ bound i len }
    ensures within { result ≤ len }
{
    if i >= 0 {
        let at = i as usize;
        if at < len { at } else { len }
    } else {
        let back = (-(i + 1)) as usize;
        if back < len { len - 1 - back } else { 0 }
    }
}

/// Returns where a bound cuts `len` members, or `other` if the bound is `None`. Returns no place for a value of another
/// type.
pub fn slice_bound_or(other: usize, x: Val, len: usize) -> Option<usize>
    requires { other ≤ len }
    ensures value { result ≡ bound_or other x len }
    ensures within { IfSome result (λ i. i ≤ len) }
{
    match x {
        Val::Nothing => Some(other),
        Val::Int(i) => Some(slice_bound(i, len)),
        _ => None,
    }
}

/// Returns the part between two bounds, or fault 5.
pub fn cut<T: Copy>(alloc: Global, a: &[T], from: Val, to: Val) -> Result<Vec<T>, Halt>
    ensures { CutAs (cut a.now from to) result }
{
    let (Some(from), Some(to)) = (
        slice_bound_or(0, from, a.len()),
        slice_bound_or(a.len(), to, a.len()),
    ) else {
        return Err(Halt::Code(faults::WRONG_TYPE));
    };
    let part = subrange(a, from, to);
    Ok(Vec::from_slice(alloc, part)?)
}

/// Returns these members in a list that is empty.
pub(crate) fn fill<T: Copy>(empty: Vec<T>, a: &[T]) -> Result<Vec<T>, Memory>
    requires { empty.items ≡ [] }
    ensures { IfOk result (λ v. v.items ≡ a.now) }
{
    let mut all = empty;
    all.reserve_exact(a.len())?;
    all.extend_from_slice(a)?;
    Ok(all)
}

/// Returns the part between two places.
pub(crate) fn subrange<T>(a: &[T], from: usize, to: usize) -> &[T]
    requires { to ≤ length a.now }
    ensures { result.now ≡ between a.now from to }
{
    if from <= to { &a[from..to] } else { &a[0..0] }
}
