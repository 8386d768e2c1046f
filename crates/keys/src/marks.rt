//! Marks of a name: which pairs of bytes it has, told by the bits of one word. Names that lack a pair are left without a
//! look at their bytes.
ghost use Rattle.std.specs.Prelude.{◌≡◌, IfOk, map};
ghost use Rattle.keys.specs.Marks as specs;

use base_types::{Memory, Text};
use std::alloc::Global;

/// Returns the bit that stands for two bytes, one after the other. Other pairs may have the same bit.
#[inline(always)]
pub fn pair_bit(first: u8, second: u8) -> u64
    ensures { result ≡ specs.pair_bit first second }
{
    1 << ((first as u32 * 11 + second as u32 * 5) % 64)
}

/// Returns the bits of all pairs of bytes that a name has, one after the other.
pub fn pair_marks(name: &str) -> u64
    ensures { result ≡ specs.pair_marks name.now }
{
    let mut marks = 0;
    let mut rest = name.as_bytes();
    while let Some((first, others)) = rest.split_first() {
        if let Some(second) = others.first() {
            marks |= pair_bit(*first, *second);
        }
        rest = others;
    }
    marks
}

/// Returns the marks of each of some names.
pub fn all_marks(alloc: Global, names: &[Text]) -> Result<Vec<u64>, Memory>
    ensures { IfOk result (λ v. v.items ≡ map specs.pair_marks names.now) }
{
    let mut all = Vec::with_capacity(alloc, names.len())?;
    for name in names.iter() {
        all.push(pair_marks(name.as_str()))?;
    }
    Ok(all)
}
