//! Texts in byte order.
ghost use Rattle.std.specs.Prelude.{◌≡◌, ◌<◌, ◌+◌, length, drop, true, IfOk};
ghost use Rattle.filetree.specs.Listings.{sorted_names};

use base_types::{Memory, Text};
use std::alloc::Global;
use std::collections::BTreeSet;

// Returns the set of these texts.
fn set_of(alloc: Global, texts: &[Text]) -> Result<BTreeSet<Text>, Memory>
    ensures { IfOk result (λ set. set.keys ≡ sorted_names texts.now) }
{
    let mut set = BTreeSet::new(alloc);
    let mut i = texts.len();
    while i > 0 {
        i -= 1;
        set.insert(texts[i].share()?)?;
    }
    Ok(set)
}

// Returns the same texts, shared.
fn share_texts(alloc: Global, texts: &[Text]) -> Result<Vec<Text>, Memory>
    ensures { IfOk result (λ v. v.items ≡ texts.now) }
{
    let mut all = Vec::with_capacity(alloc, texts.len())?;
    for text in texts {
        all.push(text.share()?)?;
    }
    Ok(all)
}

// Returns texts in byte order, each once, by way of a set.
fn by_set(alloc: Global, texts: &[Text]) -> Result<Vec<Text>, Memory>
    ensures { IfOk result (λ v. v.items ≡ sorted_names texts.now) }
{
    let set = set_of(alloc, texts)?;
    let mut all = Vec::new(alloc);
    for text in set.iter() {
        all.push(text.share()?)?;
    }
    Ok(all)
}

// Returns whether a text is below the next one, if there is one.
fn is_below_next(texts: &[Text], i: usize) -> bool
    requires { i < length texts.now }
    ensures { result ≡ true → sorted_names (drop (i + 1) texts.now) ≡ drop (i + 1) texts.now
        → sorted_names (drop i texts.now) ≡ drop i texts.now }
{
    if i + 1 < texts.len() {
        let order = texts[i].cmp(&texts[i + 1]);
        return order.is_lt();
    }
    true
}

// Returns whether texts are in byte order, each once.
fn are_in_order(texts: &[Text]) -> bool
    ensures { result ≡ true → sorted_names texts.now ≡ texts.now }
{
    let mut i = texts.len();
    while i > 0 {
        i -= 1;
        if !is_below_next(texts, i) {
            return false;
        }
    }
    true
}

/// Returns texts in byte order, each once.
pub fn in_order(alloc: Global, texts: &[Text]) -> Result<Vec<Text>, Memory>
    ensures { IfOk result (λ v. v.items ≡ sorted_names texts.now) }
{
    if are_in_order(texts) {
        let few = share_texts(alloc, texts)?;
        return Ok(few);
    }
    by_set(alloc, texts)
}
