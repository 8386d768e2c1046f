//! Names that are found one after another, each of which is kept once.
ghost use Rattle.std.specs.Prelude.{◌≡◌, ◌∷◌, [], OnOk};
ghost use Rattle.syntax_tree.specs.Bindings.{has_name};
ghost use Rattle.syntax_bindings.specs.NameSets.{names_of, SameNames, Finds};

use base_types::{Memory, Text};
use indexmap::IndexSet;
use std::alloc::Global;

/// The most names that are searched one by one; for more a set is made.
pub const MAX_LINEAR: usize = 16;

/// The names that were found, and those of them that are kept.
#[derive(Drop)]
pub struct NameSet {
    // The first names, and those after them.
    few: Vec<Text>,
    more: IndexSet<Text>,
    kept: Vec<Text>,
}

impl NameSet {
    /// Returns the names that are kept.
    pub fn into_names(self) -> Vec<Text>
        ensures { result ≡ self.kept }
    {
        self.kept
    }
}

/// Makes a record in which no name was found and these names are already kept.
pub fn empty(alloc: Global, kept: Vec<Text>) -> NameSet
    ensures names { names_of result ≡ [] }
    ensures kept { result.kept ≡ kept }
{
    NameSet {
        few: Vec::new(alloc),
        more: IndexSet::new(alloc),
        kept,
    }
}

/// Returns whether a name is one of these.
pub fn is_among(names: &[Text], x: &Text) -> bool
    ensures { result ≡ has_name x.now names.now }
{
    for name in names.iter() {
        if *x == *name {
            return true;
        }
    }
    false
}

// Returns whether a name was found.
fn is_found(found: &NameSet, x: &Text) -> bool
    ensures { result ≡ has_name x.now (names_of found.now) }
{
    is_among(found.few.as_slice(), x) || found.more.contains(x)
}

/// Notes a name as found, without keeping it.
pub fn insert_unlisted(found: &mut NameSet, x: &Text) -> Result<(), Memory>
    ensures names { OnOk result (SameNames (names_of found.new) (x.now ∷ names_of found.old)) }
    ensures kept { found.new.kept ≡ found.old.kept }
{
    let x = x.share()?;
    if found.few.len() < MAX_LINEAR {
        found.few.push(x)?;
    } else {
        found.more.insert(x)?;
    }
    Ok(())
}

/// Finds a name, which is kept if it is found for the first time.
pub fn find(found: &mut NameSet, x: &Text) -> Result<(), Memory>
    ensures { OnOk result (Finds found.old (x.now ∷ []) found.new) }
{
    if is_found(found, x) {
        return Ok(());
    }
    insert_unlisted(found, x)?;
    found.kept.push(x.share()?)?;
    Ok(())
}
