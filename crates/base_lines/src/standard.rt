//! Any reader of `std` as an input, and any writer as an output.
//!
//! Each adapter keeps, for contracts alone, what its device was at first. Where `std` knows the bytes of the device, an
//! invariant ties them to the adapter's history, so a body that adds to the history and leaves the device alone is no
//! adapter. An adapter has one body for all devices, so pipes and terminals are read and written in the same way.
ghost use Rattle.std.specs.Prelude.{◌≡◌, ◌+◌, ◌<◌, ◌≤◌, ◌++◌, [], IfOk, OnOk, OnErr, length, take};
ghost use Rattle.std.specs.Io.KnownBytes.{Appends, Consumes, IsAtEnd};
ghost use Rattle.base_lines.specs.Devices.{Appends-prop, Consumes-prop, EndsWithNothing, EndsWithNothing-prop};

use crate::device::{DeviceError, Input, Output};
use base_ghost::{Count, History};
use std::io::{ErrorKind, Read, Write};
use std::snapshot::Snapshot;

/// A reader. For contracts alone it keeps what it has read, how often it has failed and how often it has reported its
/// end. A read that was interrupted is tried again. At most 2^64 - 1 bytes are read in all, and a read with room for
/// more than are left of these fails.
///
/// Where the bytes that the reader had at first are known, they are those that were read, followed by those that
/// remain. It has reported its end only where none remains.
#[derive(Drop)]
pub struct ReaderInput<R: Read> {
    reader: R,
    first: Snapshot<R>,
    left: u64,
    told: History,
    failures: Count,
    ends: Count,
    ghost consumed: { Consumes (R.remaining first.value) (R.remaining reader) told } by { Consumes-prop (R.remaining first.value) (R.remaining reader) told },
    ghost ended: { EndsWithNothing ends (R.remaining first.value) (R.remaining reader) } by { EndsWithNothing-prop ends (R.remaining first.value) (R.remaining reader) },
}

impl<R: Read> ReaderInput<R> {
    /// Makes an input of which nothing is read yet.
    pub fn new(reader: R) -> ReaderInput<R>
        ensures first { result.first.value ≡ reader }
        ensures told { result.told ≡ [] }
        ensures ends { result.ends ≡ 0 }
    {
        let first = Snapshot::of(&reader);
        ReaderInput {
            reader,
            first,
            left: u64::MAX,
            told: History::new(),
            failures: Count::new(),
            ends: Count::new(),
        }
    }

    /// Returns the reader, from which exactly the bytes of the history were read.
    pub fn into_inner(self) -> R
        ensures bytes { Consumes (R.remaining self.first.value) (R.remaining result) self.told }
        ensures ended { EndsWithNothing self.ends (R.remaining self.first.value)
            (R.remaining result) }
    {
        self.reader
    }

    fn fail(&mut self) -> DeviceError
        ensures told { self.new.told ≡ self.old.told }
        ensures left { self.new.left ≡ self.old.left }
        ensures ends { self.new.ends ≡ self.old.ends }
        ensures failures { self.new.failures ≡ self.old.failures + 1 }
        ensures first { self.new.first.value ≡ self.old.first.value }
    {
        self.failures.add_one();
        DeviceError
    }

    // Reads from the reader, and tries again after an interruption.
    #[tactic(auto, using(crate::proofs::KnownDevices::reads_more, crate::proofs::KnownDevices::at_end_stays, crate::proofs::KnownDevices::at_end_kept))]
    fn read_once(&mut self, buffer: &mut [u8]) -> Result<usize, DeviceError>
        ensures count { IfOk result (λ n. n ≤ length buffer.new) }
        ensures told { IfOk result (λ n. self.new.told ≡ self.old.told ++ take n buffer.new) }
        ensures end { IfOk result (λ n. n ≡ 0 → 0 < length buffer.new
            → IsAtEnd (R.remaining self.new.reader)) }
        ensures left { self.new.left ≡ self.old.left }
        ensures ends { self.new.ends ≡ self.old.ends }
        ensures ok { OnOk result (self.new.failures ≡ self.old.failures) }
        ensures err { OnErr result (self.new.told ≡ self.old.told) }
        ensures failed { OnErr result (self.new.failures ≡ self.old.failures + 1) }
        ensures first { self.new.first.value ≡ self.old.first.value }
    {
        for _ in 0..u64::MAX {
            match self.reader.read(buffer) {
                Ok(n) => {
                    self.told.add_all(&buffer[..n]);
                    return Ok(n);
                }
                Err(error) => {
                    if error.kind() != ErrorKind::Interrupted {
                        return Err(self.fail());
                    }
                }
            }
        }
        Err(self.fail())
    }
}

impl<R: Read> Input for ReaderInput<R> {
    ghost told = { λ s. s.told };

    ghost failures = { λ s. s.failures };

    ghost ends = { λ s. s.ends };

    ghost left = { λ s. s.left };

    ghost at_first = { λ s. R.remaining s.first.value };

    fn read(&mut self, buffer: &mut [u8]) -> Result<usize, DeviceError> {
        if buffer.len() as u64 > self.left {
            return Err(self.fail());
        }
        let n = self.read_once(buffer)?;
        if n == 0 && !buffer.is_empty() {
            self.ends.add_one();
        }
        self.left -= n as u64;
        Ok(n)
    }
}

/// A writer. For contracts alone it keeps what it has written and how often it has failed. A write that was interrupted
/// is tried again, and a write of no byte is a failure. Each call flushes.
///
/// Where the bytes that the writer had at first are known, it has these, followed by those of the history.
#[derive(Drop)]
pub struct WriterOutput<W: Write> {
    writer: W,
    first: Snapshot<W>,
    held: History,
    failures: Count,
    ghost appended: { Appends (W.contents first.value) (W.contents writer) held } by { Appends-prop (W.contents first.value) (W.contents writer) held },
}

impl<W: Write> WriterOutput<W> {
    /// Makes an output to which nothing is written yet.
    pub fn new(writer: W) -> WriterOutput<W>
        ensures first { result.first.value ≡ writer }
        ensures held { result.held ≡ [] }
    {
        let first = Snapshot::of(&writer);
        WriterOutput {
            writer,
            first,
            held: History::new(),
            failures: Count::new(),
        }
    }

    /// Returns the writer, to which exactly the bytes of the history were added.
    pub fn into_inner(self) -> W
        ensures { Appends (W.contents self.first.value) (W.contents result) self.held }
    {
        self.writer
    }

    fn fail(&mut self) -> DeviceError
        ensures held { self.new.held ≡ self.old.held }
        ensures failures { self.new.failures ≡ self.old.failures + 1 }
        ensures first { self.new.first.value ≡ self.old.first.value }
    {
        self.failures.add_one();
        DeviceError
    }

    // Writes some of the bytes, and tries again after an interruption.
    fn write_some(&mut self, bytes: &[u8]) -> Result<usize, DeviceError>
        ensures count { IfOk result (λ n. n ≤ length bytes.now) }
        ensures held { IfOk result (λ n. self.new.held ≡ self.old.held ++ take n bytes.now) }
        ensures ok { OnOk result (self.new.failures ≡ self.old.failures) }
        ensures err { OnErr result (self.new.held ≡ self.old.held) }
        ensures failed { OnErr result (self.new.failures ≡ self.old.failures + 1) }
        ensures first { self.new.first.value ≡ self.old.first.value }
    {
        for _ in 0..u64::MAX {
            match self.writer.write(bytes) {
                Ok(n) => {
                    self.held.add_all(&bytes[..n]);
                    return Ok(n);
                }
                Err(error) => {
                    if error.kind() != ErrorKind::Interrupted {
                        return Err(self.fail());
                    }
                }
            }
        }
        Err(self.fail())
    }

    // Flushes the writer, and tries again after an interruption.
    fn flush(&mut self) -> Result<(), DeviceError>
        ensures held { self.new.held ≡ self.old.held }
        ensures ok { OnOk result (self.new.failures ≡ self.old.failures) }
        ensures failed { OnErr result (self.new.failures ≡ self.old.failures + 1) }
        ensures first { self.new.first.value ≡ self.old.first.value }
    {
        for _ in 0..u64::MAX {
            match self.writer.flush() {
                Ok(()) => return Ok(()),
                Err(error) => {
                    if error.kind() != ErrorKind::Interrupted {
                        return Err(self.fail());
                    }
                }
            }
        }
        Err(self.fail())
    }
}

impl<W: Write> Output for WriterOutput<W> {
    ghost held = { λ s. s.held };

    ghost failures = { λ s. s.failures };

    ghost at_first = { λ s. W.contents s.first.value };

    fn write(&mut self, bytes: &[u8]) -> Result<(), DeviceError> {
        let mut at = 0;
        while at < bytes.len() {
            let n = self.write_some(&bytes[at..])?;
            if n == 0 {
                return Err(self.fail());
            }
            at += n;
        }
        self.flush()
    }
}
