//! Folders in folders.
ghost use Rattle.std.specs.Prelude.{◌≡◌, ◌<◌, ◌==◌, ℕ, List, [], ◌∷◌, ◌++◌, length, true, false, Option, Some, None, IfOk, OnOk, OnErr, IfSome, MatchOption, bytes_eq, is_some, option_and_then, option_map, map as each, if◌then◌else◌};
ghost use Rattle.std.specs.Option.{option_copied};
ghost use Rattle.std.specs.Map.{lookup};
ghost use Rattle.std.specs.Bool.{MatchBool};
ghost use Rattle.filetree.specs.Folders as levels;
ghost use Rattle.filetree.specs.NameMaps as names;
ghost use Rattle.filetree.specs.Removals as removals;
ghost use Rattle.filetree.specs.Listings.{names_in};
ghost use Rattle.filetree.specs.ListingView.{names_seen};

use crate::listing::Listing;
use crate::name_map::{NameMap, find_name};
use base_types::{Memory, Text};
use std::alloc::Global;
use std::marker::Model;
use std::sync::Arc;

/// The files of a folder and the folders in it, by their names. A contract sees the files below it, with the paths that
/// lead to them from here.
#[derive(Drop)]
pub(crate) struct Folder {
    files: NameMap<Text>,
    folders: NameMap<Folder>,
}

impl Model for Folder {
    ghost use Rattle.std.specs.Prelude.{IsTrue};
    ghost use Rattle.filetree.specs.Folders as levels;
    ghost use Rattle.filetree.specs.NameMaps as names;

    ghost Value = { levels.Below };

    ghost view = { λ f. record { entries = levels.level (names.folder_entries f.files) (names.folder_entries f.folders); depth = levels.depth_of f.folders } };

    ghost invariant = { λ f. IsTrue (levels.is_sound (names.folder_entries f.files) (names.folder_entries f.folders)) };

    ghost size = { λ v. v.depth };

    ghost use Rattle.filetree.specs.Depths.{depth_falls};

    ghost size_decreases = { λ a h. depth_falls a };
}

// Returns the first name of a path and the rest, if the path has a slash.
fn split_name(path: &str) -> Option<(&str, &str)>
    ensures { MatchOption result (levels.has_no_slash path.now ≡ true)
        (λ x. levels.IsSplit path.now x.0.now x.1.now) }
{
    path.split_once('/')
}

impl Folder {
    /// Makes a folder without files.
    pub(crate) fn new(alloc: Global) -> Folder
        ensures { result.entries ≡ [] }
    {
        Folder {
            files: NameMap::new(alloc),
            folders: NameMap::new(alloc),
        }
    }

    // Returns the text of the file at a name.
    fn own_file(&self, name: &str) -> Option<&Text>
        requires { levels.has_no_slash name.now ≡ true }
        ensures { option_copied result ≡ levels.text_at self.now.entries name.now }
    {
        self.files.get(name)
    }

    // Returns the folder at a name. It is not empty.
    fn folder(&self, name: &str) -> Option<&Folder>
        requires { levels.has_no_slash name.now ≡ true }
        ensures below { (rest : List ℕ) → option_and_then (λ f. levels.text_at f.now.entries rest)
            result ≡ levels.text_at self.now.entries (name.now ++ 47 ∷ rest) }
        ensures some { IfSome result (λ f. 0 < length f.now.entries) }
    {
        self.folders.get(name)
    }

    fn is_empty(&self) -> bool
        ensures { result ≡ (length self.now.entries == 0) }
    {
        self.files.is_empty() && self.folders.is_empty()
    }

    // Returns the folder with this text at a name.
    fn with_file(&self, alloc: Global, name: &str, text: &Arc<Text>) -> Result<Folder, Memory>
        requires { levels.has_no_slash name.now ≡ true }
        ensures { IfOk result (λ new. (path : List ℕ) → levels.text_at new.entries path
            ≡ (if bytes_eq name.now path then Some text.now.value
            else levels.text_at self.now.entries path)) }
    {
        let mut files = self.files.copy(alloc)?;
        let folders = self.folders.copy(alloc)?;
        files.put(alloc, name, Arc::try_clone(text)?)?;
        Ok(Folder { files, folders })
    }

    // Returns the folder without the file at a name.
    fn without_file(&self, alloc: Global, name: &str) -> Result<Folder, Memory>
        requires { levels.has_no_slash name.now ≡ true }
        ensures { IfOk result (λ new. (path : List ℕ) → levels.text_at new.entries path
            ≡ (if bytes_eq name.now path then None else levels.text_at self.now.entries path)) }
    {
        let mut files = self.files.copy(alloc)?;
        let folders = self.folders.copy(alloc)?;
        files.remove(name);
        Ok(Folder { files, folders })
    }

    // Returns the folder with another folder at a name, which differs at one path from the one there.
    fn with_folder(&self, alloc: Global, name: &str, inner: Folder) -> Result<Folder, Memory>
        requires plain { levels.has_no_slash name.now ≡ true }
        requires some { 0 < length inner.entries }
        ensures { IfOk result (λ new. (rest : List ℕ) (w : Option (List ℕ))
            → levels.Changes name.now rest w self.now.entries inner.entries → (path : List ℕ)
            → levels.text_at new.entries path ≡ (if bytes_eq (name.now ++ 47 ∷ rest) path then w
            else levels.text_at self.now.entries path)) }
    {
        let files = self.files.copy(alloc)?;
        let mut folders = self.folders.copy(alloc)?;
        folders.put(alloc, name, Arc::new(alloc, inner)?)?;
        Ok(Folder { files, folders })
    }

    // Returns the folder without the folder at a name, which has a text at one path at most.
    fn without_folder(&self, alloc: Global, name: &str) -> Result<Folder, Memory>
        requires { levels.has_no_slash name.now ≡ true }
        ensures { IfOk result (λ new. (rest : List ℕ) → levels.Changes name.now rest None
            self.now.entries [] → (path : List ℕ) → levels.text_at new.entries path
            ≡ (if bytes_eq (name.now ++ 47 ∷ rest) path then None
            else levels.text_at self.now.entries path)) }
    {
        let files = self.files.copy(alloc)?;
        let mut folders = self.folders.copy(alloc)?;
        folders.remove(name);
        Ok(Folder { files, folders })
    }

    fn copy(&self, alloc: Global) -> Result<Folder, Memory>
        ensures { IfOk result (λ new. new.entries ≡ self.now.entries) }
    {
        let files = self.files.copy(alloc)?;
        let folders = self.folders.copy(alloc)?;
        Ok(Folder { files, folders })
    }

    fn without_empty(self) -> Option<Folder>
        ensures same { (path : List ℕ) → option_and_then (λ f. levels.text_at f.entries path) result
            ≡ levels.text_at self.entries path }
        ensures some { IfSome result (λ f. 0 < length f.entries) }
    {
        if self.is_empty() { None } else { Some(self) }
    }

    /// Returns a folder with a text at a path alone.
    pub(crate) fn of_one(alloc: Global, path: &str, text: &Arc<Text>) -> Result<Folder, Memory>
        ensures { IfOk result (λ new. (other : List ℕ) → levels.text_at new.entries other
            ≡ (if bytes_eq path.now other then Some text.now.value else None)) }
    {
        let empty = Folder::new(alloc);
        let Some((name, rest)) = split_name(path) else {
            return empty.with_file(alloc, path, text);
        };
        let inner = Folder::of_one(alloc, rest, text)?;
        empty.with_folder(alloc, name, inner)
    }

    /// Returns the folder with a text at a path; its other parts are shared.
    pub(crate) fn put(&self, alloc: Global, path: &str, text: &Arc<Text>) -> Result<Folder, Memory>
        ensures { IfOk result (λ new. (other : List ℕ) → levels.text_at new.entries other
            ≡ (if bytes_eq path.now other then Some text.now.value
            else levels.text_at self.now.entries other)) }
    {
        let Some((name, rest)) = split_name(path) else {
            return self.with_file(alloc, path, text);
        };
        let inner = match self.folder(name) {
            Some(folder) => folder.put(alloc, rest, text)?,
            None => Folder::of_one(alloc, rest, text)?,
        };
        self.with_folder(alloc, name, inner)
    }

    /// Returns the folder without the text at a path, if anything is left; its other parts are shared.
    pub(crate) fn del(&self, alloc: Global, path: &str) -> Result<Option<Folder>, Memory>
        ensures same { IfOk result
            (λ left. (other : List ℕ) → option_and_then (λ f. levels.text_at f.entries other) left
            ≡ (if bytes_eq path.now other then None else levels.text_at self.now.entries other)) }
        ensures some { IfOk result (λ left. IfSome left (λ f. 0 < length f.entries)) }
    {
        let Some((name, rest)) = split_name(path) else {
            return Ok(self.without_file(alloc, path)?.without_empty());
        };
        let Some(folder) = self.folder(name) else {
            return Ok(self.copy(alloc)?.without_empty());
        };
        let left = match folder.del(alloc, rest)? {
            Some(inner) => self.with_folder(alloc, name, inner)?,
            None => self.without_folder(alloc, name)?,
        };
        Ok(left.without_empty())
    }

    /// Returns the text at a path.
    pub(crate) fn file(&self, path: &str) -> Option<&Text>
        ensures { option_copied result ≡ levels.text_at self.now.entries path.now }
    {
        match split_name(path) {
            None => self.own_file(path),
            Some((name, rest)) => match self.folder(name) {
                Some(folder) => folder.file(rest),
                None => None,
            },
        }
    }

    /// Returns whether a file lies below the path.
    pub(crate) fn has_below(&self, path: &str) -> bool
        ensures yes { result ≡ true → (rest : List ℕ)
            × (is_some (levels.text_at self.now.entries (path.now ++ 47 ∷ rest)) ≡ true) }
        ensures no { result ≡ false → (rest : List ℕ) → levels.text_at self.now.entries
            (path.now ++ 47 ∷ rest) ≡ None }
    {
        match split_name(path) {
            None => self.folder(path).is_some(),
            Some((name, rest)) => match self.folder(name) {
                Some(folder) => folder.has_below(rest),
                None => false,
            },
        }
    }

    /// Returns whether a proper ancestor of the path is a file.
    pub(crate) fn has_above(&self, path: &str) -> bool
        ensures yes { result ≡ true → (front : List ℕ) × (rest : List ℕ)
            × (path.now ≡ front ++ 47 ∷ rest) × (is_some (levels.text_at self.now.entries front)
            ≡ true) }
        ensures no { result ≡ false → (front rest : List ℕ) → path.now ≡ front ++ 47 ∷ rest
            → levels.text_at self.now.entries front ≡ None }
    {
        match split_name(path) {
            None => false,
            Some((name, rest)) => {
                if self.own_file(name).is_some() {
                    return true;
                }
                match self.folder(name) {
                    Some(folder) => folder.has_above(rest),
                    None => false,
                }
            }
        }
    }

    // Returns the folder at a path. It is not empty.
    fn folder_at(&self, path: &str) -> Option<&Folder>
        ensures found { MatchOption result ((rest : List ℕ) → levels.text_at self.now.entries
            (path.now ++ 47 ∷ rest) ≡ None)
            (λ f. (rest : List ℕ) → levels.text_at f.now.entries rest
            ≡ levels.text_at self.now.entries (path.now ++ 47 ∷ rest)) }
        ensures some { IfSome result (λ f. 0 < length f.now.entries) }
    {
        match split_name(path) {
            None => self.folder(path),
            Some((name, rest)) => match self.folder(name) {
                Some(folder) => folder.folder_at(rest),
                None => None,
            },
        }
    }

    // Returns the names in the folder, which is not empty.
    fn names(&self, alloc: Global) -> Result<Listing, Memory>
        requires { 0 < length self.now.entries }
        ensures { IfOk result
            (λ l. Some (names_seen l) ≡ names_in [] (each (λ e. e.0) self.now.entries)) }
    {
        Ok(Listing {
            files: self.files.names(alloc)?,
            directories: self.folders.names(alloc)?,
        })
    }

    /// Returns the names in a directory, if the directory exists; the root's name is empty.
    pub(crate) fn listing(&self, alloc: Global, directory: &str) -> Result<Option<Listing>, Memory>
        ensures { IfOk result (λ l. option_map names_seen l ≡ names_in directory.now
            (each (λ e. e.0) self.now.entries)) }
    {
        if directory.is_empty() {
            if self.is_empty() {
                return Ok(None);
            }
            return Ok(Some(self.names(alloc)?));
        }
        match self.folder_at(directory) {
            Some(folder) => Ok(Some(folder.names(alloc)?)),
            None => Ok(None),
        }
    }

    // Puts a text at a path in place.
    #[cycle(put_shared)]
    fn put_file(&mut self, alloc: Global, path: &str, text: &Arc<Text>) -> Result<(), Memory>
        ensures ok { OnOk result ((other : List ℕ) → levels.text_at self.new.entries other
            ≡ (if bytes_eq path.now other then Some text.now.value
            else levels.text_at self.old.entries other)) }
        ensures err { OnErr result (self.new.entries ≡ self.old.entries) }
    {
        let Some((name, rest)) = split_name(path) else {
            return self.files.put(alloc, path, Arc::try_clone(text)?);
        };
        let is_there = put_in_folder(&mut self.folders, alloc, name, rest, text)?;
        if is_there {
            return Ok(());
        }
        let inner = Folder::of_one(alloc, rest, text)?;
        self.folders.put(alloc, name, Arc::new(alloc, inner)?)
    }

    // Removes the file at a path in place, and returns whether the folder has files left.
    #[cycle(del_shared)]
    fn del_file(&mut self, alloc: Global, path: &str) -> Result<bool, Memory>
        ensures ok { IfOk result (λ left. (left ≡ removals.has_files self.new) × removals.LosesFile
            path.now self.old self.new) }
        ensures err { OnErr result (self.new.entries ≡ self.old.entries) }
    {
        let Some((name, rest)) = split_name(path) else {
            self.files.remove(path);
            return Ok(!self.is_empty());
        };
        let left = del_in_folder(&mut self.folders, alloc, name, rest)?;
        if left {
            return Ok(!self.is_empty());
        }
        self.folders.remove(name);
        Ok(!self.is_empty())
    }
}

// Puts a text at a path into the folder at a name, if there is one, and returns whether there is.
#[cycle(put_shared)]
fn put_in_folder(
    folders: &mut NameMap<Folder>,
    alloc: Global,
    name: &str,
    rest: &str,
    text: &Arc<Text>,
) -> Result<bool, Memory>
    requires { names.is_ascending (names.folder_entries folders.old) ≡ true }
    ensures ok { IfOk result (λ there. MatchBool there (levels.Rewrites name.now
        (levels.IsPut rest.now text.now.value) (names.folder_entries folders.old)
        (names.folder_entries folders.new)) ((names.folder_entries folders.new ≡
        names.folder_entries folders.old) × (lookup (bytes_eq name.now) (names.folder_entries
        folders.old) ≡ None))) }
    ensures err { OnErr result (levels.Rewrites name.now (λ before after. after.entries
        ≡ before.entries) (names.folder_entries folders.old) (names.folder_entries folders.new)) }
{
    match folders {
        NameMap::Few(list) => match find_name(list, name) {
            Ok(at) => {
                put_shared(&mut list[at].1, alloc, rest, text)?;
                Ok(true)
            }
            Err(_) => Ok(false),
        },
        NameMap::Many(map) => match map.get_mut(name) {
            Some(shared) => {
                put_shared(shared, alloc, rest, text)?;
                Ok(true)
            }
            None => Ok(false),
        },
    }
}

/// Puts a text at a path. The folders on the way are changed in place where they are not shared, and copied elsewhere.
#[cycle(put_shared)]
pub(crate) fn put_shared(
    shared: &mut Arc<Folder>,
    alloc: Global,
    path: &str,
    text: &Arc<Text>,
) -> Result<(), Memory>
    ensures ok { OnOk result ((other : List ℕ) → levels.text_at shared.new.value.entries other
        ≡ (if bytes_eq path.now other then Some text.now.value
        else levels.text_at shared.old.value.entries other)) }
    ensures err { OnErr result (shared.new.value.entries ≡ shared.old.value.entries) }
{
    if let Some(folder) = Arc::get_mut(shared) {
        return folder.put_file(alloc, path, text);
    }
    let new = shared.put(alloc, path, text)?;
    *shared = Arc::new(alloc, new)?;
    Ok(())
}

// Removes the file at a path of the folder at a name, and returns whether that folder is there and has files left.
#[cycle(del_shared)]
fn del_in_folder(
    folders: &mut NameMap<Folder>,
    alloc: Global,
    name: &str,
    rest: &str,
) -> Result<bool, Memory>
    requires { names.is_ascending (names.folder_entries folders.old) ≡ true }
    ensures ok { IfOk result (λ left. MatchBool left (levels.Rewrites name.now
        (removals.LosesOneFile rest.now) (names.folder_entries folders.old) (names.folder_entries
        folders.new)) (removals.LosesFolder name.now rest.now (names.folder_entries folders.old)
        (names.folder_entries folders.new))) }
    ensures err { OnErr result (levels.Rewrites name.now (λ before after. after.entries
        ≡ before.entries) (names.folder_entries folders.old) (names.folder_entries folders.new)) }
{
    match folders {
        NameMap::Few(list) => match find_name(list, name) {
            Ok(at) => del_shared(&mut list[at].1, alloc, rest),
            Err(_) => Ok(false),
        },
        NameMap::Many(map) => match map.get_mut(name) {
            Some(shared) => del_shared(shared, alloc, rest),
            None => Ok(false),
        },
    }
}

/// Removes the file at a path, and returns whether the folder has files left. The folders on the way are changed in
/// place where they are not shared, and copied elsewhere.
#[cycle(del_shared)]
pub(crate) fn del_shared(
    shared: &mut Arc<Folder>,
    alloc: Global,
    path: &str,
) -> Result<bool, Memory>
    ensures ok { IfOk result (λ left. (left ≡ removals.has_files shared.new.value)
        × removals.LosesFile path.now shared.old.value shared.new.value) }
    ensures err { OnErr result (shared.new.value.entries ≡ shared.old.value.entries) }
{
    if let Some(folder) = Arc::get_mut(shared) {
        return folder.del_file(alloc, path);
    }
    let new = match shared.del(alloc, path)? {
        Some(folder) => folder,
        None => Folder::new(alloc),
    };
    let left = !new.is_empty();
    *shared = Arc::new(alloc, new)?;
    Ok(left)
}
