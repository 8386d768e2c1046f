//! Texts in byte order.
ghost use Rattle.std.specs.Prelude.{◌≡◌, IfOk};
ghost use Rattle.evaluator_semantics.specs.Sorting.{in_order};

use base_types::{Memory, Text};
use std::alloc::Global;
use std::collections::BTreeSet;

/// Returns texts in byte order, each once.
pub fn in_order(alloc: Global, texts: &[Text]) -> Result<Vec<Text>, Memory>
    ensures { IfOk result (λ v. v.items ≡ in_order (λ text. text) texts.now) }
{
    let set = ordered_set(alloc, texts)?;
    let mut all = Vec::new(alloc);
    for text in set.iter() {
        all.push(text.share()?)?;
    }
    Ok(all)
}

// Returns the set of these texts.
fn ordered_set(alloc: Global, texts: &[Text]) -> Result<BTreeSet<Text>, Memory>
    ensures { IfOk result (λ set. set.keys ≡ in_order (λ text. text) texts.now) }
{
    let mut set = BTreeSet::new(alloc);
    let mut i = texts.len();
    while i > 0 {
        i -= 1;
        set.insert(texts[i].share()?)?;
    }
    Ok(set)
}
