//! Paths of files and names of packages.
ghost use Rattle.std.specs.Prelude.{◌≡◌, IsTrue, IfOk, IsErrOf, false};
ghost use Rattle.labels.specs.Paths as paths;
ghost use Rattle.labels.specs.Reading.{read_byte};

use base_types::{Memory, Text};
use std::alloc::Global;
use std::marker::Model;
use thiserror::Error;

fn is_name_byte(byte: u8) -> bool
    ensures { result ≡ paths.is_name_byte byte }
{
    matches!(byte, b'0'..=b'9' | b'A'..=b'Z' | b'a'..=b'z' | b'_' | b'-' | b'.')
}

// What is known of a segment of which the last bytes were read: there are none, they are `.`, they are `..`, or with
// more bytes in front of them they are a segment.
const EMPTY: u8 = 0;

const NAME: u8 = 3;

// Reads a byte in front of those of a segment. Returns what is known of the segment then, or of an empty one before it,
// or none if the bytes are not those of a path.
#[inline(always)]
fn read_byte(byte: u8, found: u8) -> Option<u8>
    ensures { result ≡ read_byte byte found }
{
    if byte == b'/' {
        return if found == NAME { Some(EMPTY) } else { None };
    }
    if !is_name_byte(byte) {
        return None;
    }
    if byte == b'.' && found < 2 {
        return Some(found + 1);
    }
    Some(NAME)
}

/// Returns whether the text is a path: segments joined by `/`, at most 255 bytes. A segment is one or more of ASCII
/// letters, digits, `_`, `-` and `.`, and is neither `.` nor `..`. The bytes are read once, from the last.
pub fn is_path(text: &str) -> bool
    ensures { result ≡ paths.is_path text.now }
{
    if text.len() > 255 {
        return false;
    }
    let bytes = text.as_bytes();
    let mut found = EMPTY;
    for i in (0..bytes.len()).rev() {
        let byte = bytes[i];
        match read_byte(byte, found) {
            Some(next) => found = next,
            None => return false,
        }
    }
    found == NAME
}

/// Returns whether the text names a package or a directory: a path, or the empty text for the root.
pub fn is_package_name(text: &str) -> bool
    ensures { result ≡ paths.is_package_name text.now }
{
    text.is_empty() || is_path(text)
}

/// Why there is no path.
#[derive(Debug, Drop, Error)]
pub enum BadPath {
    /// The text is not a path.
    #[error("not a path")]
    Code2,
    /// An allocation failed.
    #[error("out of memory")]
    Memory(Memory),
}

impl From<Memory> for BadPath {
    ghost use Rattle.std.specs.Prelude.{◌≡◌};
    ghost use Rattle.labels.specs.declared.path.BadPath.TheVariants.{Memory};
    ghost use Rattle.base_types.specs.Refusals.{memory};

    ghost from_gives = { λ _ e. e ≡ Memory memory };

    fn from(error: Memory) -> BadPath {
        BadPath::Memory(error)
    }
}

/// A path of a file, as a shared text. A contract sees it as its bytes.
#[derive(Drop)]
pub struct Path {
    text: Text,
}

impl Model for Path {
    ghost use Rattle.std.specs.Prelude.{ℕ, List, IsTrue};
    ghost use Rattle.labels.specs.Paths as paths;
    ghost use Rattle.labels.specs.Reading.{read_byte};

    ghost Value = { List ℕ };

    ghost view = { λ p. p.text };

    ghost invariant = { λ p. IsTrue (paths.is_path p.text) };
}

impl Path {
    /// Makes a path from a text that is one; another text is `Code2`.
    pub fn new(alloc: Global, text: &str) -> Result<Path, BadPath>
        ensures ok { IfOk result (λ p. p ≡ text.now) }
        ensures path { IfOk result (λ p. IsTrue (paths.is_path p)) }
        ensures bad { IsErrOf result BadPath.Code2 → paths.is_path text.now ≡ false }
    {
        if !is_path(text) {
            return Err(BadPath::Code2);
        }
        let text = Text::new(alloc, text)?;
        Ok(Path { text })
    }

    /// Returns the path.
    pub fn as_str(&self) -> &str
        ensures value { result.now ≡ self.now }
        ensures path { IsTrue (paths.is_path self.now) }
    {
        self.text.as_str()
    }

    /// Returns the path as a shared text.
    pub fn text(&self) -> &Text
        ensures value { result.now ≡ self.now }
        ensures path { IsTrue (paths.is_path self.now) }
    {
        &self.text
    }
}
