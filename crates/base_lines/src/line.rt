//! A line, or that it is too long.
ghost use Rattle.std.specs.Prelude.{◌≡◌, ℕ, List, [], ◌++◌, false, OnOk, length, ◌==◌};
ghost use Rattle.base_lines.specs.Lines.{HoldsLine};

use std::alloc::{AllocError, Global};

const MAX_LINE: usize = 1_048_576;

/// What is kept of a line: its bytes, or that it is too long.
#[derive(Drop)]
pub struct Line {
    pub bytes: Vec<u8>,
    pub too_long: bool,
}

impl Line {
    /// Makes an empty line.
    pub fn new(alloc: Global) -> Line
        ensures { HoldsLine result.bytes.items result.too_long [] }
    {
        Line {
            bytes: Vec::new(alloc),
            too_long: false,
        }
    }

    /// Makes the line empty again.
    pub fn clear(&mut self)
        ensures { HoldsLine self.new.bytes.items self.new.too_long [] }
    {
        self.bytes.clear();
        self.too_long = false;
    }

    /// Returns whether the line is empty.
    pub fn is_empty(&self) -> bool
        ensures { (line : List ℕ) → HoldsLine self.now.bytes.items self.now.too_long line
            → result ≡ (length line == 0) }
    {
        !self.too_long && self.bytes.is_empty()
    }

    /// Adds a part to the line. Once the line is too long, it keeps no bytes.
    pub fn push(&mut self, part: &[u8]) -> Result<(), AllocError>
        ensures { OnOk result ((line : List ℕ) → HoldsLine self.old.bytes.items self.old.too_long
            line → HoldsLine self.new.bytes.items self.new.too_long (line ++ part.now)) }
    {
        if self.too_long {
            return Ok(());
        }
        if part.len() > MAX_LINE || self.bytes.len() > MAX_LINE - part.len() {
            self.bytes.clear();
            self.too_long = true;
            return Ok(());
        }
        self.bytes.extend_from_slice(part)
    }
}
