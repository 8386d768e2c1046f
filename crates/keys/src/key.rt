//! What names a node.
ghost use Rattle.std.specs.Prelude.{◌≡◌, ◌==◌, ◌++◌, false, IfOk, IfNone, IfSome, OnOk, refl};
ghost use Rattle.std.proofs.Common.{rules};
ghost use Rattle.std.specs.String.{string_bytes};
ghost use Rattle.std.specs.Cmp.{partial_order_from_own_ties};
ghost use Rattle.std.specs.Cmp.Rules.{comparing, hashing};
ghost use Rattle.std.specs.Cmp.Lexicographic.{pointwise, slice_cmp};
ghost use Rattle.std.specs.Ordering.{as_partial_cmp, eq_of_both, nat_cmp, on, then_cmp};
ghost use Rattle.keys.specs.Keys.{key_cmp, key_eq, key_fed, kind, name_of, pattern_of, scope, prefix, key_name, key_text};

use base_types::{Memory, Text};
use std::alloc::Global;
use std::cmp::Ordering;
use std::hash::{Hash, Hasher};

// The place of globs in the order of kinds.
const GLOB: u8 = 3;

/// What names a node. Keys are ordered by kind, as they are here, and then by the bytes of their texts, which is the
/// order of their fields.
pub enum Key {
    /// A file, by its path. It is a leaf: its value is read from the files.
    File(Text),
    /// The names in a directory, by the directory's name, which is empty for the root. It is also a leaf.
    Listing(Text),
    /// Which BUILD file a package has, by the package's name, which is empty for the root.
    Lookup(Text),
    /// What a pattern finds below a directory: the directory's name, which is empty for the root, the pattern, and
    /// whether it finds directories too.
    Glob(Text, Text, bool),
    /// What the evaluation of a .bzl file leaves, by the text of its label.
    Module(Text),
    /// The targets of a package, by its name, which is empty for the root.
    Package(Text),
    /// The names of all packages at and below a directory, by its name, which is empty for the root.
    Under(Text),
}

impl Drop for Key {
    fn drop(self) {
        match self {
            Key::File(_) => {}
            Key::Listing(_) => {}
            Key::Lookup(_) => {}
            Key::Glob(_, _, _) => {}
            Key::Module(_) => {}
            Key::Package(_) => {}
            Key::Under(_) => {}
        }
    }
}

impl Key {
    /// Returns the same key, whose texts are shared.
    pub fn share(&self) -> Result<Key, Memory>
        ensures { IfOk result (λ k. k ≡ self.now) }
    {
        let name = self.name().share()?;
        match self {
            Key::File(_) => Ok(Key::File(name)),
            Key::Listing(_) => Ok(Key::Listing(name)),
            Key::Lookup(_) => Ok(Key::Lookup(name)),
            Key::Glob(_, pattern, directories) => {
                Ok(Key::Glob(name, pattern.share()?, *directories))
            }
            Key::Module(_) => Ok(Key::Module(name)),
            Key::Package(_) => Ok(Key::Package(name)),
            Key::Under(_) => Ok(Key::Under(name)),
        }
    }

    // Returns the place of the kind in the order.
    fn kind(&self) -> u8
        ensures { result ≡ kind self.now }
    {
        match self {
            Key::File(_) => 0,
            Key::Listing(_) => 1,
            Key::Lookup(_) => 2,
            Key::Glob(_, _, _) => GLOB,
            Key::Module(_) => 4,
            Key::Package(_) => 5,
            Key::Under(_) => 6,
        }
    }

    // Returns the kind's word, and what is before the name.
    fn prefix(&self) -> &'static str
        ensures { result.now ≡ prefix self.now }
    {
        match self {
            Key::File(_) => "file ",
            Key::Listing(_) => "listing //",
            Key::Lookup(_) => "lookup //",
            Key::Glob(_, _, _) => "glob //",
            Key::Module(_) => "module ",
            Key::Package(_) => "package //",
            Key::Under(_) => "under //",
        }
    }

    /// Returns the path, or the name of the directory or the package. For a module it is the label.
    pub fn name(&self) -> &Text
        ensures { result.now ≡ name_of self.now }
    {
        match self {
            Key::File(path) => path,
            Key::Listing(directory) => directory,
            Key::Lookup(package) => package,
            Key::Glob(directory, _, _) => directory,
            Key::Module(label) => label,
            Key::Package(package) => package,
            Key::Under(directory) => directory,
        }
    }

    /// Returns the pattern of a glob, and an empty text for other keys.
    pub fn pattern(&self) -> &str
        ensures { result.now ≡ pattern_of self.now }
    {
        match self {
            Key::Glob(_, pattern, _) => pattern.as_str(),
            _ => "",
        }
    }

    // Returns 1 for a glob that finds directories too, and 0 otherwise.
    fn scope(&self) -> u8
        ensures { result ≡ scope self.now }
    {
        match self {
            Key::Glob(_, _, true) => 1,
            _ => 0,
        }
    }

    // Adds to a text what is after the kind's word.
    fn write_name(&self, text: &mut String) -> Result<(), Memory>
        ensures { OnOk result (string_bytes text.new ≡ string_bytes text.old ++ key_name self.now) }
    {
        text.push_str(self.name().as_str())?;
        if let Key::Glob(_, pattern, directories) = self {
            text.push_str(" ")?;
            text.push_str(pattern.as_str())?;
            if *directories {
                text.push_str(" dirs")?;
            }
        }
        Ok(())
    }

    /// Returns the key as it is written: `file PATH`, `listing //DIRECTORY`, `lookup //PACKAGE`, `glob //DIRECTORY
    /// PATTERN` or `glob //DIRECTORY PATTERN dirs`, `module LABEL`, `package //PACKAGE` or `under //DIRECTORY`.
    pub fn text(&self, alloc: Global) -> Result<String, Memory>
        ensures { IfOk result (λ t. string_bytes t ≡ key_text self.now) }
    {
        let mut text = String::from_str(alloc, self.prefix())?;
        self.write_name(&mut text)?;
        Ok(text)
    }
}

// Compares the patterns of two keys, and then whether they find directories too.
fn compare_patterns(a: &Key, b: &Key) -> Ordering
    ensures { result ≡ then_cmp (on pattern_of (slice_cmp nat_cmp)) (on scope nat_cmp) a.now b.now }
{
    match a.pattern().cmp(b.pattern()) {
        Ordering::Equal => a.scope().cmp(&b.scope()),
        apart => apart,
    }
}

// Compares two keys by all but their kinds.
fn compare_names(a: &Key, b: &Key) -> Ordering
    ensures { result ≡ then_cmp (on name_of (slice_cmp nat_cmp))
        (then_cmp (on pattern_of (slice_cmp nat_cmp)) (on scope nat_cmp)) a.now b.now }
{
    match a.name().cmp(b.name()) {
        Ordering::Equal => compare_patterns(a, b),
        apart => apart,
    }
}

// Returns the names of two keys, if these are of one kind.
fn names_of_a_kind<'a>(a: &'a Key, b: &'a Key) -> Option<(&'a Text, &'a Text)>
    ensures alike { IfSome result (λ names. (kind a.now ≡ kind b.now)
        × (names.0.now ≡ name_of a.now) × (names.1.now ≡ name_of b.now)) }
    ensures apart { IfNone result ((kind a.now == kind b.now) ≡ false) }
{
    match (a, b) {
        (Key::File(a), Key::File(b)) => Some((a, b)),
        (Key::Listing(a), Key::Listing(b)) => Some((a, b)),
        (Key::Lookup(a), Key::Lookup(b)) => Some((a, b)),
        (Key::Glob(a, _, _), Key::Glob(b, _, _)) => Some((a, b)),
        (Key::Module(a), Key::Module(b)) => Some((a, b)),
        (Key::Package(a), Key::Package(b)) => Some((a, b)),
        (Key::Under(a), Key::Under(b)) => Some((a, b)),
        _ => None,
    }
}

// Returns whether two keys of one kind have one pattern, and both or neither find directories too. Keys that are not
// globs have no pattern.
fn same_patterns(a: &Key, b: &Key) -> bool
    requires { kind a.now ≡ kind b.now }
    ensures { result ≡ eq_of_both (on pattern_of (pointwise ◌==◌)) (on scope ◌==◌) a.now b.now }
{
    if a.kind() != GLOB {
        return true;
    }
    a.pattern() == b.pattern() && a.scope() == b.scope()
}

impl PartialEq for Key {
    ghost eq = { key_eq };

    ghost laws = { Prim.search (comparing, rules) depth 12 };

    fn eq(&self, other: &Key) -> bool {
        match names_of_a_kind(self, other) {
            Some((name, other_name)) => name == other_name && same_patterns(self, other),
            None => false,
        }
    }
}

impl Eq for Key {
    ghost laws = { Prim.search (comparing, rules) depth 12 };
}

impl PartialOrd for Key {
    ghost partial_cmp = { as_partial_cmp key_cmp };

    ghost laws = { partial_order_from_own_ties (Prim.search (comparing, rules) depth 12) (Prim.search (comparing, rules) depth 12) };

    fn partial_cmp(&self, other: &Key) -> Option<Ordering> {
        Some(self.cmp(other))
    }
}

impl Ord for Key {
    ghost cmp = { key_cmp };

    ghost total = { Prim.search (comparing, rules) depth 12 };

    ghost matches_partial_cmp = { λ x y. refl };

    ghost matches_eq = { Prim.search (comparing, rules) depth 12 };

    fn cmp(&self, other: &Key) -> Ordering {
        match self.kind().cmp(&other.kind()) {
            Ordering::Equal => compare_names(self, other),
            apart => apart,
        }
    }
}

impl Hash for Key {
    ghost hash_input = { key_fed };

    ghost respects_eq = { Prim.search (hashing, rules) depth 12 };

    fn hash<H: Hasher>(&self, state: &mut H) {
        state.write_u8(self.kind());
        state.write(self.name().as_str().as_bytes());
        if self.kind() == GLOB {
            state.write(self.pattern().as_bytes());
            state.write_u8(self.scope());
        }
    }
}
