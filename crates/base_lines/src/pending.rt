//! Bytes that were read and not yet taken.
ghost use Rattle.std.specs.Prelude.{◌≡◌, ℕ, ◌+◌, ◌≤◌, ◌<◌, List, [], ◌++◌, length, IfOk, OnOk, OnErr, if◌then◌else◌, IsErrOf, false, position, ◌==◌};
ghost use Rattle.base_lines.specs.Lines.{Took, TookPart};

use super::device::{DeviceError, Input};
use super::line::Line;
use base_types::Memory;
use std::alloc::{AllocError, Global};
use std::marker::Model;

const BUFFER_SIZE: usize = 65536;

/// Bytes that were read and not yet taken, as a list.
#[derive(Drop)]
pub struct Pending {
    bytes: Vec<u8>,
    start: usize,
    end: usize,
}

impl Model for Pending {
    ghost use Rattle.std.specs.Prelude.{ℕ, List, slice_range, length, ◌≤◌, ◌<◌};

    ghost Value = { List ℕ };

    ghost view = { λ p. slice_range p.bytes.items p.start p.end };

    ghost invariant = { λ p. (p.start ≤ p.end) × (p.end ≤ length p.bytes.items) × (0 < length p.bytes.items) };
}

// Returns the place of the first byte 10.
fn break_of(waiting: &[u8]) -> Option<usize>
    ensures { result ≡ position (λ b. b == 10) waiting.now }
{
    waiting.iter().position(|b| *b == b'\n')
}

/// Why no line came.
#[derive(Clone, Copy)]
pub enum LineError {
    Read,
    Memory(Memory),
}

impl From<AllocError> for LineError {
    ghost use Rattle.base_lines.specs.declared.pending.LineError.TheVariants.{Memory};
    ghost use Rattle.base_types.specs.Refusals.{memory};

    ghost from_gives = { λ _ e. e ≡ Memory memory };

    fn from(error: AllocError) -> LineError {
        LineError::Memory(Memory::from(error))
    }
}

impl From<DeviceError> for LineError {
    ghost use Rattle.base_lines.specs.declared.pending.LineError.TheVariants.{Read};

    ghost from_gives = { λ _ e. e ≡ Read };

    fn from(_e: DeviceError) -> LineError {
        LineError::Read
    }
}

impl Pending {
    /// Makes an empty list. Its buffer is as large as one read.
    pub fn new(alloc: Global) -> Result<Pending, AllocError>
        ensures { IfOk result (λ p. p ≡ []) }
    {
        let bytes = vec![in alloc; 0; BUFFER_SIZE]?;
        Ok(Pending {
            bytes,
            start: 0,
            end: 0,
        })
    }

    /// Takes the bytes up to the first byte 10, or all bytes if there is none. Returns whether there was one.
    fn take_part(&mut self, line: &mut Line) -> Result<bool, AllocError>
        ensures { IfOk result (λ ended. TookPart self.old self.new
            line.old.bytes.items line.old.too_long line.new.bytes.items line.new.too_long ended) }
    {
        let waiting = &self.bytes[self.start..self.end];
        match break_of(waiting) {
            Some(at) => {
                line.push(&waiting[..at])?;
                self.start += at + 1;
                Ok(true)
            }
            None => {
                line.push(waiting)?;
                self.start = self.end;
                Ok(false)
            }
        }
    }

    /// Reads bytes from the input in the place of those that are pending. Returns how many it read.
    fn fill<R: Input>(&mut self, input: &mut R) -> Result<usize, LineError>
        ensures told { OnOk result (R.told input.new ≡ R.told input.old ++ self.new) }
        ensures count { IfOk result (λ n. n ≡ length self.new) }
        ensures left { IfOk result (λ n. R.left input.new + n ≤ R.left input.old) }
        ensures counted { R.failures input.old ≤ R.failures input.new }
        ensures failed { OnErr result (R.failures input.old < R.failures input.new) }
        ensures err { OnErr result (R.told input.new ≡ R.told input.old) }
        ensures read { OnErr result (IsErrOf result LineError.Read) }
        ensures ended { IfOk result (λ n. n ≡ 0 → R.ends input.old < R.ends input.new) }
        ensures ends { R.ends input.old ≤ R.ends input.new }
        ensures device { R.at_first input.new ≡ R.at_first input.old }
    {
        let n = input.read(self.bytes.as_mut_slice())?;
        self.start = 0;
        self.end = n;
        Ok(n)
    }
}

/// Takes the next line of the input, or the rest at its end. Returns whether a byte 10 ended it.
pub fn next_line<R: Input>(
    input: &mut R,
    pending: &mut Pending,
    line: &mut Line,
) -> Result<bool, LineError>
    ensures took { IfOk result (λ ended. Took pending.old pending.new (R.told input.old)
        (R.told input.new) line.new.bytes.items line.new.too_long ended) }
    ensures left { IfOk result (λ ended. R.left input.new + length pending.new
        + (if ended then 1 else 0) ≤ R.left input.old + length pending.old) }
    ensures counted { R.failures input.old ≤ R.failures input.new }
    ensures failed { IsErrOf result LineError.Read → R.failures input.old < R.failures input.new }
    ensures err { OnErr result ((fresh : List ℕ) × (R.told input.new ≡ R.told input.old ++ fresh)) }
    ensures ended { IfOk result (λ ended. ended ≡ false → R.ends input.old < R.ends input.new) }
    ensures ends { R.ends input.old ≤ R.ends input.new }
    ensures device { R.at_first input.new ≡ R.at_first input.old }
{
    line.clear();
    loop {
        if pending.take_part(line)? {
            return Ok(true);
        }
        if pending.fill(input)? == 0 {
            return Ok(false);
        }
    }
}
