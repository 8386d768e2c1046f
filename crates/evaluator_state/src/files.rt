//! The files whose names are on the heap.
ghost use Rattle.std.specs.Prelude.{◌≡◌, ◌∷◌, ◌++◌, [], ℕ, List, map, option_map, IfOk, OnOk, OnErr};
ghost use Rattle.evaluator_semantics.specs.World.{World};
ghost use Rattle.evaluator_semantics.specs.Names.{file_slot, names_at, change_names, bind_global};
ghost use Rattle.evaluator_state.specs.View.{here_of, Ran, kept_of};
ghost use Rattle.evaluator_state.specs.Blocks.{names_of};
ghost use Rattle.evaluator_state.specs.FileLabels.{labels_in, HasLabels};
ghost use Rattle.evaluator_state.specs.Places.{FirstPlace, is_file};

use crate::blocks::{bind_in, slot_in};
use crate::defaults::with_name;
use crate::marking::mark_files;
use crate::state::{FileNames, FunctionDefaults, Position};
use base_types::{Memory, Text};
use indexmap::IndexSet;
use std::alloc::Global;
use std::marker::Model;
use std::sync::atomic::AtomicUsize;
use values_heap::{Halt, Marks, Val};
use values_semantics::faults;

/// The most files that are searched one by one; for more a set of their labels is made.
const FEW: usize = 16;

// The labels of many files, in their order, if each occurs once.
#[derive(Drop)]
struct Index {
    labels: Option<IndexSet<Text>>,
}

/// The files whose names are on the heap, in the order in which they came there. They are found by their labels, and
/// where some have one label it is the first of these that counts. A contract sees the names of each file.
pub struct Files {
    kept: Vec<FileNames>,
    index: Index,
}

impl Drop for Files {
    fn drop(self) {
        let Files { kept: _, index: _ } = self;
    }
}

impl Model for Files {
    ghost use Rattle.std.specs.Prelude.{List, map};
    ghost use Rattle.evaluator_semantics.specs.World.{Names};
    ghost use Rattle.evaluator_state.specs.Blocks.{names_of};
    ghost use Rattle.evaluator_state.specs.FileLabels.{HasLabels};

    ghost Value = { List Names };

    ghost view = { λ d. map names_of d.kept.items };

    ghost invariant = { λ d. HasLabels d.index.labels d.kept.items };
}

// Returns the place of the first file with a label, of a few.
fn place_of_few(files: &[FileNames], label: &Text) -> Option<usize>
    ensures { FirstPlace (is_file label.now) files.now result }
{
    for i in 0..files.len() {
        if *label == files[i].label {
            return Some(i);
        }
    }
    None
}

// Returns the place of the first file with a label. Where there is a set of the labels, it takes no search.
fn place_of(files: &[FileNames], index: &Option<IndexSet<Text>>, label: &Text) -> Option<usize>
    requires { HasLabels index.now files.now }
    ensures { FirstPlace (is_file label.now) files.now result }
{
    match index {
        Some(labels) => labels.get_index_of(label),
        None => place_of_few(files, label),
    }
}

// Returns the labels of files, if each occurs once.
fn index_of(alloc: Global, files: &[FileNames]) -> Result<Option<IndexSet<Text>>, Memory>
    ensures { IfOk result (λ index. HasLabels index files.now) }
{
    let mut labels = IndexSet::new(alloc);
    for file in files.iter() {
        if labels.contains(&file.label) {
            return Ok(None);
        }
        labels.insert(file.label.share()?)?;
    }
    Ok(Some(labels))
}

// Binds a global that is not bound, in the first file with the label of the code.
fn bind_in_file(
    files: &mut Vec<FileNames>,
    index: &Option<IndexSet<Text>>,
    at: &Position,
    x: &Text,
    last: &AtomicUsize,
    value: Val,
) -> Result<(), Halt>
    requires { HasLabels index.now files.old.items }
    ensures says { (line : ℕ) (running : List (List ℕ × List ℕ)) (u : World) → u.files
        ≡ map names_of files.old.items → let here = here_of at.now line running in
        Ran here.site (bind_global (file_slot x.now (names_at at.now.label u.files)) x.now value
        here u) result (record u { files = map names_of files.new.items }) }
    ensures labels { labels_in files.new.items ≡ labels_in files.old.items }
{
    let Some(i) = place_of(files.as_slice(), index, &at.label) else {
        return Err(Halt::Code(faults::BOUND_TWICE));
    };
    let file = &mut files[i];
    match slot_in(&file.block, x, last) {
        Some(None) => {
            bind_in(&mut file.block, x, last, value)?;
            Ok(())
        }
        Some(Some(_)) => Err(Halt::Code(faults::BOUND_TWICE)),
        None => Err(Halt::Code(faults::BOUND_TWICE)),
    }
}

// Adds the defaults of a function to the first file with a label, if there is one.
fn add_to_file(
    files: &mut Vec<FileNames>,
    index: &Option<IndexSet<Text>>,
    label: &Text,
    kept: FunctionDefaults,
) -> Result<(), Memory>
    requires { HasLabels index.now files.old.items }
    ensures added { OnOk result (map names_of files.new.items ≡ change_names label.now
        (λ f. record f { defaults = kept_of kept ∷ f.defaults }) (map names_of files.old.items)) }
    ensures refused { OnErr result (map names_of files.new.items ≡ map names_of files.old.items) }
    ensures labels { labels_in files.new.items ≡ labels_in files.old.items }
{
    let Some(i) = place_of(files.as_slice(), index, label) else {
        return Ok(());
    };
    files[i].defaults.add(kept)
}

impl Files {
    /// Makes a list without files.
    pub fn new(alloc: Global) -> Files
        ensures { result ≡ [] }
    {
        Files {
            kept: Vec::new(alloc),
            index: Index { labels: None },
        }
    }

    // Makes the set of the files' labels before there are more than `FEW` of them.
    fn begin_index(&mut self) -> Result<(), Memory>
        ensures { self.new ≡ self.old }
    {
        if self.kept.len() != FEW {
            return Ok(());
        }
        self.index.labels = index_of(*self.kept.allocator(), self.kept.as_slice())?;
        Ok(())
    }

    /// Adds a file as the last.
    ///
    /// # Errors
    ///
    /// Returns `Memory`, and adds none, if an allocation fails.
    pub fn add(&mut self, file: FileNames) -> Result<(), Memory>
        ensures added { OnOk result (self.new ≡ self.old ++ names_of file ∷ []) }
        ensures refused { OnErr result (self.new ≡ self.old) }
    {
        self.begin_index()?;
        self.kept.reserve(1)?;
        let index = self.index.labels.take();
        self.index.labels = with_name(index, &file.label)?;
        self.kept.push_reserved(file);
        Ok(())
    }

    /// Returns the first file with a label, if there is one. Where there are many files, whose labels differ, it takes
    /// no search.
    pub fn with_label(&self, label: &Text) -> Option<&FileNames>
        ensures { option_map (λ f. names_of f.now) result ≡ names_at label.now self.now }
    {
        match place_of(self.kept.as_slice(), &self.index.labels, label) {
            Some(i) => Some(&self.kept[i]),
            None => None,
        }
    }

    /// Binds a global of the file in which code stands. Returns fault 26 if the file has no such global, or if the
    /// global is bound.
    pub(crate) fn bind_global(
        &mut self,
        at: &Position,
        x: &Text,
        last: &AtomicUsize,
        value: Val,
    ) -> Result<(), Halt>
        ensures { (line : ℕ) (running : List (List ℕ × List ℕ)) (u : World) → u.files ≡ self.old
            → let here = here_of at.now line running in
            Ran here.site (bind_global (file_slot x.now (names_at at.now.label u.files)) x.now value
            here u) result (record u { files = self.new }) }
    {
        bind_in_file(&mut self.kept, &self.index.labels, at, x, last, value)
    }

    /// Adds the defaults of a function to those of the first file with a label, if there is one, as the newest.
    ///
    /// # Errors
    ///
    /// Returns `Memory`, and adds none, if an allocation fails.
    pub fn add_defaults(&mut self, label: &Text, kept: FunctionDefaults) -> Result<(), Memory>
        ensures added { OnOk result (self.new ≡ change_names label.now
            (λ f. record f { defaults = kept_of kept ∷ f.defaults }) self.old) }
        ensures refused { OnErr result (self.new ≡ self.old) }
    {
        add_to_file(&mut self.kept, &self.index.labels, label, kept)
    }

    /// Marks the values of all names and defaults as reached.
    pub fn reach(&self, reached: &mut Marks) -> Result<(), Memory> {
        mark_files(reached, self.kept.as_slice())
    }
}
