//! Whether two frozen values are one value.
ghost use Rattle.std.specs.Prelude.{◌≡◌, ◌≤◌, map, IsTrue};
ghost use Rattle.std.specs.Bool.{Decides};
ghost use Rattle.values_freeze.specs.View.{frozen_of, entry_of, members_of, pairs_of};
ghost use Rattle.values_freeze.specs.Same.{depth, same_within, same_members, same_pairs, same_entry};

use crate::frozen::{Frozen, FrozenEntry};
use values_heap::MAX_DEPTH;

/// Returns whether two values are one value, which is exact for those at most 64 containers deep. It compares no
/// deeper, and takes no steps.
#[tactic(auto, using(crate::specs::SameLaws::within_exact, crate::specs::SameLaws::same_is_one))]
pub fn same_frozen(a: &Frozen, b: &Frozen) -> bool
    ensures exact { depth (frozen_of a.now) ≤ 64
        → Decides result (frozen_of a.now ≡ frozen_of b.now) }
    ensures alike { IsTrue result → frozen_of a.now ≡ frozen_of b.now }
{
    same(a, b, MAX_DEPTH)
}

// Returns whether two values are one value, where `left` more containers may be entered.
#[cycle(same)]
fn same(a: &Frozen, b: &Frozen, left: u32) -> bool
    ensures { result ≡ same_within (frozen_of a.now) (frozen_of b.now) left }
{
    match (a, b) {
        (Frozen::Nothing, Frozen::Nothing) => true,
        (Frozen::Bool(x), Frozen::Bool(y)) => *x == *y,
        (Frozen::Int(x), Frozen::Int(y)) => *x == *y,
        (Frozen::Builtin(x), Frozen::Builtin(y)) => x.number() == y.number(),
        (Frozen::Text(x), Frozen::Text(y)) => x == y,
        (Frozen::List(xs), Frozen::List(ys)) => {
            left != 0 && same_all(xs.as_slice(), ys.as_slice(), left - 1)
        }
        (Frozen::Tuple(xs), Frozen::Tuple(ys)) => {
            left != 0 && same_all(xs.as_slice(), ys.as_slice(), left - 1)
        }
        (Frozen::Dict(xs), Frozen::Dict(ys)) => {
            left != 0 && same_entries(xs.as_slice(), ys.as_slice(), left - 1)
        }
        (Frozen::Function(l, f), Frozen::Function(m, g)) => l == m && f == g,
        _ => false,
    }
}

// Returns whether members are the same, in order.
#[cycle(same)]
fn same_all(xs: &[Frozen], ys: &[Frozen], left: u32) -> bool
    ensures { result ≡ same_members (members_of (map frozen_of xs.now))
        (members_of (map frozen_of ys.now)) left }
{
    if xs.len() != ys.len() {
        return false;
    }
    for i in 0..xs.len() {
        if !same(&xs[i], &ys[i], left) {
            return false;
        }
    }
    true
}

// Returns whether entries are the same, in order.
#[cycle(same)]
fn same_entries(xs: &[FrozenEntry], ys: &[FrozenEntry], left: u32) -> bool
    ensures { result ≡ same_pairs (pairs_of (map entry_of xs.now)) (pairs_of (map entry_of ys.now))
        left }
{
    if xs.len() != ys.len() {
        return false;
    }
    for i in 0..xs.len() {
        if !same_entry(&xs[i], &ys[i], left) {
            return false;
        }
    }
    true
}

// Returns whether two entries are the same. Compares the keys first.
#[cycle(same)]
fn same_entry(x: &FrozenEntry, y: &FrozenEntry, left: u32) -> bool
    ensures { result ≡ same_entry (entry_of x.now) (entry_of y.now) left }
{
    same(&x.key, &y.key, left) && same(&x.value, &y.value, left)
}
