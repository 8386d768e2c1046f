//! The program but for its `main`, over a reader and a writer of `std`.
ghost use Rattle.std.specs.Prelude.{◌≡◌, ◌⊎◌};
ghost use Rattle.std.specs.Io.KnownBytes.{Keeps};
ghost use Rattle.loader.specs.Programs.{AnswersAll, AnswersPart};

use crate::serving::command;
use base_lines::{ReaderInput, WriterOutput};
use std::alloc::Global;
use std::convert::AsStr;
use std::io::{Read, Write};
use std::rt::Files;
use std::sync::Wait;
use std::thread::Threads;

/// How the program ended, with its devices.
#[derive(Drop)]
pub struct ProgramEnd<R, W> {
    /// The exit status: 0, 2 or 3.
    pub status: u8,
    pub reader: R,
    pub writer: W,
}

/// Runs the program: `words` are its words, its own name first. It writes to `writer` the replies to the lines of
/// `reader`, beginning with no files, and returns both with the exit status. The contract says what was done to them in
/// the words of `std`: for a reader whose bytes are known, and for a writer whose contents are known. Pipes and
/// terminals are served by the same body.
///
/// The status is 0 if all of the reader's bytes are read and there is a reply to each line, by the files at that line
/// alone. It is 2 for bad words, for which a text is written to `errors`; then nothing is read or written. It is 3 for
/// a stop, for which a line is written to `errors`: `stop: read`, `stop: write`, `stop: budget` or `stop: memory`. Then
/// a beginning of the replies was written.
pub fn run_program<T: Threads + Wait + Sync + Files, S: AsStr, R: Read, W: Write, E: Write>(
    runtime: &T,
    alloc: Global,
    words: &[S],
    reader: R,
    writer: W,
    errors: &mut E,
) -> ProgramEnd<R, W>
    ensures served { result.status ≡ 0 → AnswersAll (R.remaining reader)
        (R.remaining result.reader) (W.contents writer) (W.contents result.writer) }
    ensures stopped { result.status ≡ 3 → AnswersPart (R.remaining reader)
        (R.remaining result.reader) (W.contents writer) (W.contents result.writer) }
    ensures bad_words { result.status ≡ 2
        → Keeps (R.remaining reader) (R.remaining result.reader)
        × Keeps (W.contents writer) (W.contents result.writer) }
    ensures status { (result.status ≡ 0) ⊎ (result.status ≡ 2) ⊎ (result.status ≡ 3) }
{
    let mut input = ReaderInput::new(reader);
    let mut output = WriterOutput::new(writer);
    let status = command(runtime, alloc, words, &mut input, &mut output, errors);
    let reader = input.into_inner();
    let writer = output.into_inner();
    ProgramEnd {
        status,
        reader,
        writer,
    }
}
