//! The map of files, in folders that are shared.
ghost use Rattle.std.specs.Prelude.{◌≡◌, ℕ, List, Some, None, IfOk, OnOk, OnErr, bytes_eq, option_map, if◌then◌else◌};
ghost use Rattle.std.specs.Option.{option_copied};
ghost use Rattle.std.specs.FinMap as map;
ghost use Rattle.filetree.specs.Files as specs;
ghost use Rattle.filetree.specs.Edits.{Edits, Tells};
ghost use Rattle.filetree.specs.Folders as levels;
ghost use Rattle.filetree.specs.Listings.{listing};
ghost use Rattle.filetree.specs.ListingView.{names_seen};

use crate::error::TreeError;
use crate::folder::{Folder, del_shared, put_shared};
use crate::listing::Listing;
use base_types::{Memory, Text};
use labels::is_path;
use std::alloc::Global;
use std::marker::Model;
use std::sync::Arc;

const TEXT_LIMIT: usize = 262_144;

/// The files: texts by their paths. A contract sees a finite map from the bytes of paths to the bytes of texts. A
/// directory exists exactly when a file lies below it. Copies share their folders: an edit changes the folders on its
/// path in place where no copy has them, and else makes new ones and shares all others.
#[derive(Drop)]
pub struct Tree {
    alloc: Global,
    root: Option<Arc<Folder>>,
}

impl Model for Tree {
    ghost use Rattle.std.specs.FinMap as map;
    ghost use Rattle.std.specs.Coded.{coded_list, coded_ℕ};
    ghost use Rattle.filetree.specs.Files.{Files};
    ghost use Rattle.filetree.specs.Folders.{entries_of};

    ghost Value = { Files };

    ghost coded = { map.code (coded_list coded_ℕ) (coded_list coded_ℕ) };

    ghost view = { λ t. map.from_entries (entries_of t.root) };
}

// Puts a text at a path below the first folder.
fn put_in_root(
    root: &mut Option<Arc<Folder>>,
    alloc: Global,
    path: &str,
    text: &str,
) -> Result<(), Memory>
    ensures ok { OnOk result ((other : List ℕ) → levels.text_at (levels.entries_of root.new) other
        ≡ (if bytes_eq path.now other then Some text.now else levels.text_at
        (levels.entries_of root.old) other)) }
    ensures err { OnErr result (levels.entries_of root.new ≡ levels.entries_of root.old) }
{
    let text = Arc::new(alloc, Text::new(alloc, text)?)?;
    if let Some(shared) = root {
        return put_shared(shared, alloc, path, &text);
    }
    let new = Folder::of_one(alloc, path, &text)?;
    *root = Some(Arc::new(alloc, new)?);
    Ok(())
}

// Removes the file at a path below the first folder.
fn del_in_root(root: &mut Option<Arc<Folder>>, alloc: Global, path: &str) -> Result<(), Memory>
    ensures ok { OnOk result ((other : List ℕ) → levels.text_at (levels.entries_of root.new) other
        ≡ (if bytes_eq path.now other then None else levels.text_at (levels.entries_of root.old)
        other)) }
    ensures err { OnErr result (levels.entries_of root.new ≡ levels.entries_of root.old) }
{
    if let Some(shared) = root {
        let _ = del_shared(shared, alloc, path)?;
    }
    Ok(())
}

impl Tree {
    /// Makes a tree without files. It grows by the allocator that it is made with.
    pub fn new(alloc: Global) -> Tree
        ensures { result ≡ map.empty }
    {
        Tree { alloc, root: None }
    }

    /// Returns the text of the file at the path.
    pub fn file(&self, path: &str) -> Option<&Text>
        ensures { option_copied result ≡ map.get self.now path.now }
    {
        match &self.root {
            Some(root) => root.file(path),
            None => None,
        }
    }

    /// Returns whether there is a file at the path.
    pub fn is_file(&self, path: &str) -> bool
        ensures { result ≡ specs.is_file self.now path.now }
    {
        self.file(path).is_some()
    }

    fn is_directory(&self, path: &str) -> bool
        ensures { result ≡ specs.is_directory self.now path.now }
    {
        match &self.root {
            Some(root) => root.has_below(path),
            None => false,
        }
    }

    fn is_below_a_file(&self, path: &str) -> bool
        ensures { result ≡ specs.is_below_a_file self.now path.now }
    {
        match &self.root {
            Some(root) => root.has_above(path),
            None => false,
        }
    }

    /// Returns the names in a directory, or `None` if there is no such directory. The root's name is empty, and the
    /// root of an empty tree does not exist. The cost depends on the directory's own names.
    pub fn listing(&self, directory: &str) -> Result<Option<Listing>, Memory>
        ensures { IfOk result (λ l. option_map names_seen l ≡ listing self.now directory.now) }
    {
        match &self.root {
            Some(root) => root.listing(self.alloc, directory),
            None => Ok(None),
        }
    }

    /// Returns an equal tree, which shares all its folders with this one. It costs one count, whatever the size.
    pub fn copy(&self) -> Result<Tree, Memory>
        ensures { IfOk result (λ t. t ≡ self.now) }
    {
        let root = match &self.root {
            Some(root) => Some(Arc::try_clone(root)?),
            None => None,
        };
        Ok(Tree {
            alloc: self.alloc,
            root,
        })
    }

    fn test_put(&self, path: &str, text: &str) -> Result<(), TreeError>
        ensures { Tells result (specs.put_refusal self.now path.now text.now) }
    {
        if !is_path(path) {
            return Err(TreeError::Code2);
        }
        if text.len() > TEXT_LIMIT {
            return Err(TreeError::Code7);
        }
        if self.is_below_a_file(path) || self.is_directory(path) {
            return Err(TreeError::Code3);
        }
        Ok(())
    }

    fn test_del(&self, path: &str) -> Result<(), TreeError>
        ensures { Tells result (specs.del_refusal self.now path.now) }
    {
        if !is_path(path) {
            return Err(TreeError::Code2);
        }
        if !self.is_file(path) {
            return Err(TreeError::Code4);
        }
        Ok(())
    }

    /// Puts a text at a path, or returns the first refusal and changes nothing. The refusal is 2 for a bad path, and 7
    /// for a text over 262,144 bytes. It is 3 if a proper ancestor of the path is a file or the path is a directory.
    /// Returns `Memory` only if there is no other refusal.
    pub fn put(&mut self, path: &str, text: &str) -> Result<(), TreeError>
        ensures { Edits result (specs.put_refusal self.old path.now text.now)
            self.old (map.insert self.old path.now text.now) self.new }
    {
        self.test_put(path, text)?;
        put_in_root(&mut self.root, self.alloc, path, text)?;
        Ok(())
    }

    /// Removes a file, or returns the first refusal and changes nothing: 2 for a bad path, 4 if there is no such file.
    /// Returns `Memory` only if there is no other refusal.
    pub fn del(&mut self, path: &str) -> Result<(), TreeError>
        ensures { Edits result (specs.del_refusal self.old path.now)
            self.old (map.remove self.old path.now) self.new }
    {
        self.test_del(path)?;
        del_in_root(&mut self.root, self.alloc, path)?;
        Ok(())
    }
}
