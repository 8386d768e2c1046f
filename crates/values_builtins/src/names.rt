//! Named arguments.
ghost use Rattle.std.specs.Prelude.{◌≡◌, IfOk};
ghost use Rattle.values_semantics.specs.Functions.{is_twice};

use base_types::{Memory, Text};
use std::alloc::Global;
use std::collections::HashSet;
use values_heap::Val;

/// Returns whether a name occurs twice.
pub fn is_twice(alloc: Global, names: &[(Text, Val)]) -> Result<bool, Memory>
    ensures { IfOk result (λ b. b ≡ is_twice names.now) }
{
    let mut later = HashSet::new(alloc);
    let mut i = names.len();
    while i > 0 {
        i -= 1;
        if !later.insert(names[i].0.share()?)? {
            return Ok(true);
        }
    }
    Ok(false)
}
