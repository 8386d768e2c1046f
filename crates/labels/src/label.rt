//! Labels: names of targets and of module files.
ghost use Rattle.std.specs.Prelude.{◌≡◌, ◌+◌, ◌≤◌, ℕ, List, length, IfOk, IsTrue, IsErrOf, None, Some, option_map};
ghost use Rattle.std.specs.List.{after_last};
ghost use Rattle.labels.specs.Labels as labels;
ghost use Rattle.labels.specs.Paths.{is_path};

use crate::path::{is_package_name, is_path};
use arrayvec::ArrayString;
use base_types::{Memory, Text};
use std::alloc::{AllocError, Global};
use std::marker::Model;
use thiserror::Error;

/// Why there is no label.
#[derive(Debug, Drop, Error)]
pub enum BadLabel {
    /// The text is not a label.
    #[error("not a label")]
    Code15,
    /// An allocation failed.
    #[error("out of memory")]
    Memory(Memory),
}

impl From<Memory> for BadLabel {
    ghost use Rattle.std.specs.Prelude.{◌≡◌};
    ghost use Rattle.labels.specs.declared.label.BadLabel.TheVariants.{Memory};
    ghost use Rattle.base_types.specs.Refusals.{memory};

    ghost from_gives = { λ _ e. e ≡ Memory memory };

    fn from(error: Memory) -> BadLabel {
        BadLabel::Memory(error)
    }
}

impl From<AllocError> for BadLabel {
    ghost use Rattle.std.specs.Prelude.{◌≡◌};
    ghost use Rattle.labels.specs.declared.label.BadLabel.TheVariants.{Memory};
    ghost use Rattle.base_types.specs.Refusals.{memory};

    ghost from_gives = { λ _ e. e ≡ Memory memory };

    fn from(error: AllocError) -> BadLabel {
        BadLabel::Memory(Memory::from(error))
    }
}

fn last_segment(text: &str) -> &str
    ensures { result.now ≡ after_last labels.is_slash text.now }
{
    match text.rsplit_once('/') {
        Some((_, last)) => last,
        None => text,
    }
}

// Returns the package and the name that the text after `//` stands for.
fn absolute(text: &str) -> (&str, &str)
    ensures package_name { result.0.now ≡ (labels.absolute text.now).package_name }
    ensures name { result.1.now ≡ (labels.absolute text.now).name }
{
    match text.split_once(':') {
        Some((package_name, name)) => (package_name, name),
        None => (text, last_segment(text)),
    }
}

fn label_of_parts<'a>(text: &'a str, present: &'a str) -> (&'a str, &'a str)
    ensures package_name { result.0.now ≡ (labels.would_name text.now present.now).package_name }
    ensures name { result.1.now ≡ (labels.would_name text.now present.now).name }
{
    match text.strip_prefix("//") {
        Some(rest) => absolute(rest),
        None => match text.strip_prefix(":") {
            Some(name) => (present, name),
            None => (present, text),
        },
    }
}

fn is_target(package_name: &str, name: &str) -> bool
    ensures { result ≡ labels.is_target
        (record { package_name = package_name.now; name = name.now }) }
{
    if !is_package_name(package_name) || !is_path(name) {
        return false;
    }
    if package_name.is_empty() {
        return true;
    }
    package_name.len() < 255 && package_name.len() + 1 + name.len() <= 255
}

fn join_parts(alloc: Global, package_name: &str, name: &str) -> Result<Text, Memory>
    ensures { IfOk result (λ t. t ≡ labels.joined package_name.now name.now) }
{
    if package_name.is_empty() {
        return Text::new(alloc, name);
    }
    let room = package_name.len().saturating_add(name.len());
    let mut path = String::with_capacity(alloc, room.saturating_add(1))?;
    path.push_str(package_name)?;
    path.push_str("/")?;
    path.push_str(name)?;
    Text::from_string(alloc, path)
}

// The most bytes of a label's text that is put together without a string of its own.
const SHORT: usize = 128;

// Returns the text of the label of a target that is short.
fn short_text(alloc: Global, package_name: &str, name: &str) -> Result<Text, Memory>
    requires { length package_name.now + length name.now ≤ 125 }
    ensures { IfOk result
        (λ t. t ≡ labels.label_text (record { package_name = package_name.now; name = name.now })) }
{
    let mut text = ArrayString::<SHORT>::new();
    text.push_str("//");
    text.push_str(package_name);
    text.push_str(":");
    text.push_str(name);
    Text::new(alloc, text.as_str())
}

// Returns the text of the label of a target.
fn absolute_text(alloc: Global, package_name: &str, name: &str) -> Result<Text, Memory>
    ensures { IfOk result
        (λ t. t ≡ labels.label_text (record { package_name = package_name.now; name = name.now })) }
{
    let room = package_name.len().saturating_add(name.len());
    if room <= SHORT - 3 {
        return short_text(alloc, package_name, name);
    }
    let mut text = String::with_capacity(alloc, room.saturating_add(3))?;
    text.push_str("//")?;
    text.push_str(package_name)?;
    text.push_str(":")?;
    text.push_str(name)?;
    Text::from_string(alloc, text)
}

/// Returns the text of the label that `Label::read` gives, always `//P:T`, for callers that need only the text. Returns
/// `Code15` if the text is no label.
pub fn label_text(alloc: Global, text: &str, present: &str) -> Result<Text, BadLabel>
    ensures ok { IfOk result
        (λ t. option_map labels.label_text (labels.label_of text.now present.now) ≡ Some t) }
    ensures bad { IsErrOf result BadLabel.Code15 → labels.label_of text.now present.now ≡ None }
{
    let (package_name, name) = label_of_parts(text, present);
    if !is_target(package_name, name) {
        return Err(BadLabel::Code15);
    }
    Ok(absolute_text(alloc, package_name, name)?)
}

/// A label: the name of a target in a package, and of the file at that name.
#[derive(Drop)]
pub struct Label {
    text: Text,
    package_name: Text,
    name: Text,
    file: Text,
}

impl Model for Label {
    ghost use Rattle.std.specs.Prelude.{◌≡◌, IsTrue};
    ghost use Rattle.labels.specs.Labels.{Target, is_target, label_text, label_file};

    ghost Value = { Target };

    ghost view = { λ l. record { package_name = l.package_name; name = l.name } };

    ghost invariant = { λ l. IsTrue (is_target (record { package_name = l.package_name; name = l.name }))
        × (l.text ≡ label_text (record { package_name = l.package_name; name = l.name }))
        × (l.file ≡ label_file (record { package_name = l.package_name; name = l.name })) };
}

impl Label {
    /// Reads a label in a package. The forms are `//P:T`, `//P` (where P is nonempty, and T is its last segment), and
    /// `:T` or `T` (in the present package). P is a package's name, T is a path, and P and T joined are at most 255
    /// bytes. Any other text is `Code15`.
    pub fn read(alloc: Global, text: &str, present: &str) -> Result<Label, BadLabel>
        ensures ok { IfOk result (λ l. labels.label_of text.now present.now ≡ Some l) }
        ensures bad { IsErrOf result BadLabel.Code15 → labels.label_of text.now present.now ≡ None }
    {
        let (package_name, name) = label_of_parts(text, present);
        if !is_target(package_name, name) {
            return Err(BadLabel::Code15);
        }
        Ok(Label {
            text: absolute_text(alloc, package_name, name)?,
            package_name: Text::new(alloc, package_name)?,
            name: Text::new(alloc, name)?,
            file: join_parts(alloc, package_name, name)?,
        })
    }

    /// Returns the label's text, always `//P:T`. If the text is read in any package, it is this label again.
    pub fn text(&self) -> &Text
        ensures value { result.now ≡ labels.label_text self.now }
        ensures reads_back { (present : List ℕ) → labels.label_of result.now present
            ≡ Some self.now }
    {
        &self.text
    }

    /// Returns the name of the package, P.
    pub fn package_name(&self) -> &Text
        ensures { result.now ≡ self.now.package_name }
    {
        &self.package_name
    }

    /// Returns the name in the package, T.
    pub fn name(&self) -> &Text
        ensures { result.now ≡ self.now.name }
    {
        &self.name
    }

    /// Returns the path of the file, which is P and T joined.
    pub fn file(&self) -> &Text
        ensures value { result.now ≡ labels.label_file self.now }
        ensures path { IsTrue (is_path result.now) }
    {
        &self.file
    }

    /// Returns whether the label is one of a module, that is, T ends in `.bzl`.
    pub fn is_module(&self) -> bool
        ensures { result ≡ labels.is_module self.now }
    {
        self.name.as_str().ends_with(".bzl")
    }

    /// Returns the names of the packages that would be between the label's package and its file. They are the proper
    /// directories of T, each joined to P, shortest first. If one is a package, the label crosses a boundary.
    pub fn boundaries(&self, alloc: Global) -> Result<Vec<Text>, Memory>
        ensures { IfOk result (λ names. names.items ≡ labels.boundaries self.now) }
    {
        let mut names = Vec::new(alloc);
        let mut rest = self.name.as_str();
        while let Some((directory, _)) = rest.rsplit_once('/') {
            names.push(join_parts(alloc, self.package_name.as_str(), directory)?)?;
            rest = directory;
        }
        names.reverse();
        Ok(names)
    }

    /// Returns the same label, whose texts are shared.
    pub fn share(&self) -> Result<Label, Memory>
        ensures { IfOk result (λ l. l ≡ self.now) }
    {
        Ok(Label {
            text: self.text.share()?,
            package_name: self.package_name.share()?,
            name: self.name.share()?,
            file: self.file.share()?,
        })
    }
}
