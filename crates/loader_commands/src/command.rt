//! Commands.
use filetree::Change;

/// An edit: a change of one file, or several together.
#[derive(Drop)]
pub enum Edit<'a> {
    /// A text is put at a path. It replaces one that was there.
    Put(&'a str, &'a str),
    /// The file at a path is removed.
    Del(&'a str),
    /// Changes that are made in their order, all of them or none.
    Batch(Vec<Change<'a>>),
}

/// A question about the present files.
#[derive(Drop)]
pub enum Request<'a> {
    /// Which build file a package has, by the package's name.
    Find(&'a str),
    /// The packages of these names, in their order.
    Load(Vec<&'a str>),
    /// What a module exports, by its label.
    Module(&'a str),
    /// All packages at and below a directory, by the directory's name, which is empty for the root.
    Under(&'a str),
}

/// What a line asks for.
#[derive(Drop)]
pub enum Command<'a> {
    Change(Edit<'a>),
    Ask(Request<'a>),
}
