//! The value of a node.
ghost use Rattle.std.specs.Prelude.{◌≡◌, ◌&&◌, IfOk};
ghost use Rattle.std.specs.Cmp.{partial_equiv_from_equiv};
ghost use Rattle.std.specs.Cmp.Lexicographic.{pointwise};
ghost use Rattle.std.specs.Arc.{arc_value};
ghost use Rattle.keys.specs.Ascending as order;
ghost use Rattle.keys.specs.Values.{text_eq, build_eq, listed_eq, fault_eq, value_eq};
ghost use Rattle.keys.specs.NameLists.{AreMarks};
ghost use Rattle.keys.specs.ValueLaws.{builds_equiv, names_equiv, listed_equiv, faults_equiv, values_equiv};

use crate::marks::all_marks;
use base_types::{Memory, Text};
use std::alloc::Global;
use std::marker::Model;
use std::sync::Arc;
use values_modules::{ModuleValue, Targets};

/// The file that makes a directory a package.
#[derive(Clone, Copy)]
pub enum BuildName {
    /// `BUILD.bazel`, which wins where both are there.
    BuildBazel,
    /// `BUILD`.
    Build,
}

impl PartialEq for BuildName {
    ghost eq = { build_eq };

    ghost laws = { partial_equiv_from_equiv builds_equiv };

    fn eq(&self, other: &BuildName) -> bool {
        match (self, other) {
            (BuildName::BuildBazel, BuildName::BuildBazel) => true,
            (BuildName::Build, BuildName::Build) => true,
            _ => false,
        }
    }
}

impl Eq for BuildName {
    ghost laws = { builds_equiv };
}

/// Texts in order, as the labels of a cycle's members. A contract sees a list of texts.
pub struct Names {
    items: Vec<Text>,
}

impl Drop for Names {
    fn drop(self) {
        let Names { items: _ } = self;
    }
}

impl Model for Names {
    ghost use Rattle.std.specs.Prelude.{ℕ, List};

    ghost Value = { List (List ℕ) };

    ghost view = { λ n. n.items.items };
}

impl Names {
    /// Makes names from the texts of a list.
    pub fn new(items: Vec<Text>) -> Names
        ensures { result ≡ items.items }
    {
        Names { items }
    }

    /// Returns the texts.
    pub fn as_slice(&self) -> &[Text]
        ensures { result.now ≡ self.now }
    {
        self.items.as_slice()
    }
}

impl PartialEq for Names {
    ghost eq = { pointwise text_eq };

    ghost laws = { partial_equiv_from_equiv names_equiv };

    fn eq(&self, other: &Names) -> bool {
        self.items == other.items
    }
}

impl Eq for Names {
    ghost laws = { names_equiv };
}

// Returns whether each name is below those after it, in one pass over them.
fn ascend(names: &[Text]) -> bool
    ensures { result ≡ order.ascend names.now }
{
    names.is_sorted_by(|name, next| name.cmp(next).is_lt())
}

// Where a directory has more files, their marks are kept.
const MANY: usize = 256;

// What is kept of the names in a directory: whether they are in order was found out when they were made, and so were
// the marks of the files, of which there are none where the files are few.
#[derive(Drop)]
struct NameLists {
    files: Names,
    directories: Names,
    in_order: bool,
    marks: Vec<u64>,
}

/// The names in a directory: of its files, and of its subdirectories, each in byte order.
pub struct DirectoryNames {
    // Boxed, so that the many other values are small.
    lists: Box<NameLists>,
}

impl Drop for DirectoryNames {
    fn drop(self) {
        let DirectoryNames { lists: _ } = self;
    }
}

impl Model for DirectoryNames {
    ghost use Rattle.keys.specs.Directories.{DirectoryView};
    ghost use Rattle.keys.specs.NameLists.{AreKnown};

    ghost Value = { DirectoryView };

    ghost view = { λ d.
        record { files = d.lists.value.files; directories = d.lists.value.directories } };

    ghost invariant = { λ d. AreKnown d.lists.value };
}

// Returns the marks of the names of files, or none where they are few.
fn marks_of(alloc: Global, files: &[Text]) -> Result<Vec<u64>, Memory>
    ensures { IfOk result (λ v. AreMarks files.now v.items) }
{
    if files.len() <= MANY {
        return Ok(Vec::new(alloc));
    }
    all_marks(alloc, files)
}

impl DirectoryNames {
    /// Makes the names in a directory from the names of its files and subdirectories.
    ///
    /// # Errors
    ///
    /// Returns `Memory` if an allocation fails.
    pub fn new(
        alloc: Global,
        files: Vec<Text>,
        directories: Vec<Text>,
    ) -> Result<DirectoryNames, Memory>
        ensures files { IfOk result (λ d. d.files ≡ files.items) }
        ensures directories { IfOk result (λ d. d.directories ≡ directories.items) }
    {
        let in_order = ascend(files.as_slice()) && ascend(directories.as_slice());
        let marks = marks_of(alloc, files.as_slice())?;
        let lists = NameLists {
            files: Names::new(files),
            directories: Names::new(directories),
            in_order,
            marks,
        };
        let lists = Box::new(alloc, lists)?;
        Ok(DirectoryNames { lists })
    }

    /// Returns the names of the files.
    pub fn files(&self) -> &[Text]
        ensures { result.now ≡ self.now.files }
    {
        self.lists.files.as_slice()
    }

    /// Returns the names of the subdirectories.
    pub fn directories(&self) -> &[Text]
        ensures { result.now ≡ self.now.directories }
    {
        self.lists.directories.as_slice()
    }

    /// Returns whether the names of the files, and those of the subdirectories, are in byte order, each once.
    pub fn are_in_order(&self) -> bool
        ensures { result ≡ order.ascend self.now.files && order.ascend self.now.directories }
    {
        self.lists.in_order
    }

    /// Returns the marks of the names of the files, or none where the files are few: those that `pair_marks` gives.
    pub fn marks(&self) -> &[u64]
        ensures { AreMarks self.now.files result.now }
    {
        self.lists.marks.as_slice()
    }
}

impl PartialEq for DirectoryNames {
    ghost eq = { listed_eq };

    ghost laws = { partial_equiv_from_equiv listed_equiv };

    fn eq(&self, other: &DirectoryNames) -> bool {
        self.files() == other.files() && self.directories() == other.directories()
    }
}

impl Eq for DirectoryNames {
    ghost laws = { listed_equiv };
}

/// Paths in byte order, shared. A contract sees a list of texts.
pub struct Paths {
    items: Arc<Vec<Text>, Global>,
}

impl Drop for Paths {
    fn drop(self) {
        let Paths { items: _ } = self;
    }
}

impl Model for Paths {
    ghost use Rattle.std.specs.Prelude.{ℕ, List};
    ghost use Rattle.std.specs.Arc.{arc_value};

    ghost Value = { List (List ℕ) };

    ghost view = { λ p. (arc_value p.items).items };
}

impl Paths {
    /// Makes shared paths from a list.
    pub fn new(alloc: Global, items: Vec<Text>) -> Result<Paths, Memory>
        ensures { IfOk result (λ p. p ≡ items.items) }
    {
        let items = Arc::new(alloc, items)?;
        Ok(Paths { items })
    }

    /// Returns the paths.
    pub fn as_slice(&self) -> &[Text]
        ensures { result.now ≡ self.now }
    {
        self.items.as_slice()
    }

    /// Returns the same paths, shared.
    pub fn share_items(&self) -> Result<Arc<Vec<Text>, Global>, Memory>
        ensures { IfOk result (λ items. (arc_value items).items ≡ self.now) }
    {
        let items = Arc::try_clone(&self.items)?;
        Ok(items)
    }
}

impl PartialEq for Paths {
    ghost eq = { pointwise text_eq };

    ghost laws = { partial_equiv_from_equiv names_equiv };

    fn eq(&self, other: &Paths) -> bool {
        self.as_slice() == other.as_slice()
    }
}

impl Eq for Paths {
    ghost laws = { names_equiv };
}

/// A fault of a .bzl file or of a BUILD file: its code, its file and the line where it is shown. If a package does not
/// exist, the package takes the place of the file.
pub struct Fault {
    /// Which fault.
    pub code: u64,
    /// The path of the file, or the name of the package.
    pub path: Text,
    /// The line, counted from 1, or 0 where no line is shown.
    pub line: usize,
}

impl Drop for Fault {
    fn drop(self) {
        let Fault {
            code: _,
            path: _,
            line: _,
        } = self;
    }
}

impl Fault {
    /// Returns the same fault, whose text is shared.
    pub fn share(&self) -> Result<Fault, Memory>
        ensures { IfOk result (λ f. f ≡ self.now) }
    {
        Ok(Fault {
            code: self.code,
            path: self.path.share()?,
            line: self.line,
        })
    }
}

impl PartialEq for Fault {
    ghost eq = { fault_eq };

    ghost laws = { partial_equiv_from_equiv faults_equiv };

    fn eq(&self, other: &Fault) -> bool {
        self.code == other.code && self.path == other.path && self.line == other.line
    }
}

impl Eq for Fault {
    ghost laws = { faults_equiv };
}

/// The value of a node. Two values are equal exactly where a contract sees one value: a node whose new value is equal
/// to the recorded one did not change.
pub enum Value {
    /// Of a file: its text, if it exists.
    File(Option<Text>),
    /// Of a listing: the names in the directory, if it exists.
    Listing(Option<DirectoryNames>),
    /// Of a look-up: which BUILD file there is, if there is one.
    Lookup(Option<BuildName>),
    /// Of a glob: the paths that it finds, from its directory on.
    Paths(Paths),
    /// Of a module: what its file leaves, and all modules that it reaches.
    Module(ModuleValue),
    /// Of a package: its targets, in byte order of their names.
    Package(Targets),
    /// Of a module or a package whose file, or one of whose loads, has a fault.
    Fault(Fault),
    /// Of a node that cannot be evaluated since it leads into a cycle: the labels of the cycle's members that have one,
    /// rotated so that the least by bytes is first.
    Cycle(Names),
}

impl Drop for Value {
    fn drop(self) {
        match self {
            Value::File(_) => {}
            Value::Listing(_) => {}
            Value::Lookup(_) => {}
            Value::Paths(_) => {}
            Value::Module(_) => {}
            Value::Package(_) => {}
            Value::Fault(_) => {}
            Value::Cycle(_) => {}
        }
    }
}

impl PartialEq for Value {
    ghost eq = { value_eq };

    ghost laws = { partial_equiv_from_equiv values_equiv };

    fn eq(&self, other: &Value) -> bool {
        match (self, other) {
            (Value::File(a), Value::File(b)) => a == b,
            (Value::Listing(a), Value::Listing(b)) => a == b,
            (Value::Lookup(a), Value::Lookup(b)) => a == b,
            (Value::Paths(a), Value::Paths(b)) => a == b,
            (Value::Module(a), Value::Module(b)) => a == b,
            (Value::Package(a), Value::Package(b)) => a == b,
            (Value::Fault(a), Value::Fault(b)) => a == b,
            (Value::Cycle(a), Value::Cycle(b)) => a == b,
            _ => false,
        }
    }
}

impl Eq for Value {
    ghost laws = { values_equiv };
}
