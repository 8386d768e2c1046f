//! The leaves of the graph: which keys are leaves, and how the value of one is read from the files. Begin at
//! `specs/Leaves.antt`.
ghost use Rattle.std.specs.Prelude.{◌≡◌, IsTrue, IfOk, Some, option_map};
ghost use Rattle.filetree.specs.Listings.{listing};
ghost use Rattle.keys.specs.Leaves as specs;

use crate::key::Key;
use crate::value::{DirectoryNames, Value};
use base_types::Memory;
use filetree::{Listing, Tree};
use std::alloc::Global;

/// Returns whether the key is a leaf, whose value is read from the files.
pub fn is_leaf(key: &Key) -> bool
    ensures { result ≡ specs.is_leaf key.now }
{
    match key {
        Key::File(_) => true,
        Key::Listing(_) => true,
        Key::Lookup(_) => false,
        Key::Glob(_, _, _) => false,
        Key::Module(_) => false,
        Key::Package(_) => false,
        Key::Under(_) => false,
    }
}

// Returns the names in a directory, or `None` if there is no such directory.
fn read_listing(
    alloc: Global,
    tree: &Tree,
    directory: &str,
) -> Result<Option<DirectoryNames>, Memory>
    ensures { IfOk result (λ l. l ≡ option_map specs.listed_of (listing tree.now directory.now)) }
{
    match tree.listing(directory)? {
        None => Ok(None),
        Some(names) => {
            let Listing { files, directories } = names;
            Ok(Some(DirectoryNames::new(alloc, files, directories)?))
        }
    }
}

/// Reads the value of a leaf from the files. A file has its text, shared, and a listing has the names in its directory.
/// The value is empty if there is no such file or directory. Returns `Memory` if an allocation fails.
pub fn read_leaf(alloc: Global, tree: &Tree, key: &Key) -> Result<Value, Memory>
    requires { IsTrue (specs.is_leaf key.now) }
    ensures { IfOk result (λ v. specs.read tree.now key.now ≡ Some v) }
{
    match key {
        Key::File(path) => match tree.file(path.as_str()) {
            None => Ok(Value::File(None)),
            Some(text) => Ok(Value::File(Some(text.share()?))),
        },
        Key::Listing(directory) => Ok(Value::Listing(read_listing(
            alloc,
            tree,
            directory.as_str(),
        )?)),
        Key::Lookup(_) => unreachable!(),
        Key::Glob(_, _, _) => unreachable!(),
        Key::Module(_) => unreachable!(),
        Key::Package(_) => unreachable!(),
        Key::Under(_) => unreachable!(),
    }
}
