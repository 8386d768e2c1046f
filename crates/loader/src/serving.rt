//! Serving: the lines of a reader, the replies to them that go to a writer, what is kept of the runs, and the program
//! but for its `main`.
ghost use Rattle.std.specs.Prelude.{◌≡◌, [], ℕ, ◌<◌, List, length, IfOk, OnOk, OnErr, IsErrOf, not, ◌&&◌, ◌==◌, false, ◌⊎◌};
ghost use Rattle.base_lines.specs.Lines.{HoldsLine};
ghost use Rattle.round_nodes.specs.declared.run.Run.{Run};
ghost use Rattle.loader.specs.RequestCalls.{IsHandCount, ReturnsHands};
ghost use Rattle.loader.specs.Service.{Served, Stopped};
ghost use Rattle.loader.specs.ServingCalls.{AddsTurns, KeepFirsts, KeepsReader, KeepsWriter, Reads, StopsLine, TakesLine};

use crate::journal::{EventJournal, GhostJournal, Journal, Runs};
use crate::session::{Session, reply_to_line, reply_to_line_with};
use base_lines::{DeviceError, Input, Line, LineError, Output, Pending, WriterOutput, next_line};
use base_types::Memory;
use clap::error::ErrorKind;
use clap::{Arg, ArgAction, ArgMatches, Command, value_parser};
use functions::{LoadRules, Loading};
use keys::is_leaf;
use loader_events::Events;
use round::{Run, Stop};
use std::alloc::{AllocError, Global};
use std::convert::AsStr;
use std::io::Write;
use std::rt::Files;
use std::sync::Wait;
use std::thread::Threads;
use std::{fs, mem};
use thiserror::Error;

/// Why serving stopped before the end of the input. What was written is then a beginning of the replies.
#[derive(Debug, Drop, Error)]
pub enum ServeStop {
    /// The reader failed.
    #[error("read")]
    Read,
    /// The writer failed.
    #[error("write")]
    Write,
    /// A request spent its budget of turns.
    #[error("budget")]
    Budget,
    /// An allocation failed.
    #[error("memory")]
    Memory(Memory),
}

impl From<AllocError> for ServeStop {
    ghost use Rattle.std.specs.Prelude.{◌≡◌};
    ghost use Rattle.loader.specs.declared.serving.ServeStop.TheVariants.{Memory};
    ghost use Rattle.base_types.specs.Refusals.{memory};

    ghost from_gives = { λ _ e. e ≡ Memory memory };

    fn from(error: AllocError) -> ServeStop {
        ServeStop::Memory(Memory::from(error))
    }
}

impl From<Stop> for ServeStop {
    ghost use Rattle.std.specs.Prelude.{◌≡◌};
    ghost use Rattle.round.specs.declared.stop.Stop.TheVariants as stops;
    ghost use Rattle.loader.specs.declared.serving.ServeStop.TheVariants.{Budget, Memory};
    ghost use Rattle.base_types.specs.Refusals.{memory};

    ghost from_gives = { λ e f. (e ≡ stops.Budget → f ≡ Budget) × (e ≡ stops.Memory memory → f ≡ Memory memory) };

    fn from(error: Stop) -> ServeStop {
        match error {
            Stop::Budget => ServeStop::Budget,
            Stop::Memory(error) => ServeStop::Memory(error),
        }
    }
}

impl From<LineError> for ServeStop {
    ghost use Rattle.std.specs.Prelude.{◌≡◌};
    ghost use Rattle.base_lines.specs.declared.pending.LineError.TheVariants as stops;
    ghost use Rattle.loader.specs.declared.serving.ServeStop.TheVariants.{Read, Memory};
    ghost use Rattle.base_types.specs.Refusals.{memory};

    ghost from_gives = { λ e f. (e ≡ stops.Read → f ≡ Read) × (e ≡ stops.Memory memory → f ≡ Memory memory) };

    fn from(error: LineError) -> ServeStop {
        match error {
            LineError::Read => ServeStop::Read,
            LineError::Memory(error) => ServeStop::Memory(error),
        }
    }
}

impl From<DeviceError> for ServeStop {
    ghost use Rattle.std.specs.Prelude.{◌≡◌};
    ghost use Rattle.loader.specs.declared.serving.ServeStop.TheVariants.{Write};

    ghost from_gives = { λ _ e. e ≡ Write };

    fn from(_error: DeviceError) -> ServeStop {
        ServeStop::Write
    }
}

// Returns whether the input ended with no byte of a line.
fn is_end(ended: bool, line: &Line) -> bool
    ensures { (whole : List ℕ) → HoldsLine line.now.bytes.items line.now.too_long whole
        → result ≡ (not ended && (length whole == 0)) }
{
    !ended && line.is_empty()
}

// What serving keeps from line to line.
#[derive(Drop)]
struct Serving {
    session: Session,
    pending: Pending,
    line: Line,
}

// Replies to one more line, and returns whether more may come.
fn serve_line<R: Input, W: Output, J: Runs>(
    alloc: Global,
    reader: &mut R,
    writer: &mut W,
    serving: &mut Serving,
    journal: &mut J,
    budget: u64,
) -> Result<bool, ServeStop>
    ensures ok { IfOk result (TakesLine budget serving.old serving.new R.told reader.old reader.new
        W.held writer.old writer.new J.kept journal.old journal.new) }
    ensures left { IfOk result (Reads R.left R.ends reader.old reader.new serving.old serving.new) }
    ensures err { OnErr result (StopsLine budget serving.old R.ends R.told reader.old reader.new
        W.held writer.old writer.new J.kept journal.old) }
    ensures reader { KeepsReader R.failures R.ends R.at_first reader.old reader.new result }
    ensures writer { KeepsWriter W.failures W.at_first writer.old writer.new result }
{
    let ended = next_line(reader, &mut serving.pending, &mut serving.line)?;
    if is_end(ended, &serving.line) {
        return Ok(false);
    }
    let text = reply_to_line(alloc, &mut serving.session, journal, &serving.line, budget)?;
    writer.write(text.as_bytes())?;
    Ok(ended)
}

// The threads that make turns, one for each hand.
#[derive(Drop)]
struct Workers<'a, T: Threads + Wait + Sync, H: LoadRules + Send + Drop> {
    runtime: &'a T,
    hands: Vec<H>,
}

// Replies to one more line by one thread for each hand, and returns whether more may come. After a stop the hands are
// dropped.
fn serve_line_with<
    H: LoadRules + Send + Drop,
    T: Threads + Wait + Sync,
    R: Input,
    W: Output,
    J: Runs,
>(
    alloc: Global,
    workers: &mut Workers<'_, T, H>,
    reader: &mut R,
    writer: &mut W,
    serving: &mut Serving,
    journal: &mut J,
    budget: u64,
) -> Result<bool, ServeStop>
    requires { IsHandCount (length workers.old.hands.items) }
    ensures hands { OnOk result (AddsTurns H.turns workers.old.hands workers.new.hands
        J.kept journal.old journal.new) }
    ensures ok { IfOk result (TakesLine budget serving.old serving.new R.told reader.old reader.new
        W.held writer.old writer.new J.kept journal.old journal.new) }
    ensures left { IfOk result (Reads R.left R.ends reader.old reader.new serving.old serving.new) }
    ensures err { OnErr result (StopsLine budget serving.old R.ends R.told reader.old reader.new
        W.held writer.old writer.new J.kept journal.old) }
    ensures reader { KeepsReader R.failures R.ends R.at_first reader.old reader.new result }
    ensures writer { KeepsWriter W.failures W.at_first writer.old writer.new result }
{
    let ended = next_line(reader, &mut serving.pending, &mut serving.line)?;
    if is_end(ended, &serving.line) {
        return Ok(false);
    }
    let lent = mem::replace(&mut workers.hands, Vec::new(alloc));
    let session = &mut serving.session;
    let line = &serving.line;
    let done = reply_to_line_with(workers.runtime, alloc, session, journal, line, lent, budget)?;
    let (back, text) = done;
    workers.hands = back;
    writer.write(text.as_bytes())?;
    Ok(ended)
}

/// Replies to all lines of the reader up to its first end, one at a time, beginning with no files. Each reply is
/// written before more is read. A request may take at most `budget` turns of node functions.
///
/// On Ok the reader has reported its end, and the bytes written are exactly the replies to the bytes read. `journal`,
/// which had no runs before, took those of the lines. Each item is justified, none is missing, and no request has more
/// turns than `budget`. After any stop what was written is a beginning of the replies.
pub fn serve_into<R: Input, W: Output, J: Runs>(
    alloc: Global,
    reader: &mut R,
    writer: &mut W,
    budget: u64,
    journal: &mut J,
) -> Result<(), ServeStop>
    requires { J.kept journal.old ≡ [] }
    ensures ok { OnOk result (Served budget (R.told reader.old) (R.told reader.new)
        (W.held writer.old) (W.held writer.new) (J.kept journal.new)) }
    ensures err { OnErr result (Stopped (R.ends reader.old) (R.ends reader.new) (R.told reader.old)
        (R.told reader.new) (W.held writer.old) (W.held writer.new)) }
    ensures read { IsErrOf result ServeStop.Read → R.failures reader.old < R.failures reader.new }
    ensures write { IsErrOf result ServeStop.Write → W.failures writer.old < W.failures writer.new }
    ensures ended { OnOk result (R.ends reader.old < R.ends reader.new) }
    ensures devices { KeepFirsts R.at_first reader.old reader.new W.at_first writer.old writer.new }
{
    let session = Session::new(alloc);
    let pending = Pending::new(alloc)?;
    let line = Line::new(alloc);
    let mut serving = Serving {
        session,
        pending,
        line,
    };
    while serve_line(alloc, reader, writer, &mut serving, journal, budget)? {}
    Ok(())
}

/// Replies to all lines of the reader up to its first end, one at a time, beginning with no files. Each reply is
/// written before more is read. A request may take at most `budget` turns of node functions.
///
/// On Ok the reader has reported its end, and the bytes written are exactly the replies to the bytes read. The journal
/// has the runs of the lines. Each item is justified, none is missing, and no request has more turns than `budget`.
/// After any stop what was written is a beginning of the replies.
pub fn serve_here<R: Input, W: Output>(
    alloc: Global,
    reader: &mut R,
    writer: &mut W,
    budget: u64,
) -> Result<Journal, ServeStop>
    ensures ok { IfOk result (λ journal. Served budget (R.told reader.old) (R.told reader.new)
        (W.held writer.old) (W.held writer.new) journal.items) }
    ensures err { OnErr result (Stopped (R.ends reader.old) (R.ends reader.new) (R.told reader.old)
        (R.told reader.new) (W.held writer.old) (W.held writer.new)) }
    ensures read { IsErrOf result ServeStop.Read → R.failures reader.old < R.failures reader.new }
    ensures write { IsErrOf result ServeStop.Write → W.failures writer.old < W.failures writer.new }
    ensures ended { OnOk result (R.ends reader.old < R.ends reader.new) }
    ensures devices { KeepFirsts R.at_first reader.old reader.new W.at_first writer.old writer.new }
{
    let mut journal = Vec::new(alloc);
    serve_into(alloc, reader, writer, budget, &mut journal)?;
    Ok(journal)
}

/// Serves as `serve_into` does, by one thread for each hand, one of which is the caller's. Each thread keeps its hand
/// over all requests, and on Ok the hands are returned, their turns grown by those of the journal. After a stop they
/// are dropped.
pub fn serve_with<
    H: LoadRules + Send + Drop,
    T: Threads + Wait + Sync,
    R: Input,
    W: Output,
    J: Runs,
>(
    runtime: &T,
    alloc: Global,
    reader: &mut R,
    writer: &mut W,
    hands: Vec<H>,
    budget: u64,
    journal: &mut J,
) -> Result<Vec<H>, ServeStop>
    requires { IsHandCount (length hands.items) × (J.kept journal.old ≡ []) }
    ensures hands { IfOk result (λ back. ReturnsHands H.turns hands back (J.kept journal.new)) }
    ensures ok { OnOk result (Served budget (R.told reader.old) (R.told reader.new)
        (W.held writer.old) (W.held writer.new) (J.kept journal.new)) }
    ensures err { OnErr result (Stopped (R.ends reader.old) (R.ends reader.new) (R.told reader.old)
        (R.told reader.new) (W.held writer.old) (W.held writer.new)) }
    ensures read { IsErrOf result ServeStop.Read → R.failures reader.old < R.failures reader.new }
    ensures write { IsErrOf result ServeStop.Write → W.failures writer.old < W.failures writer.new }
    ensures ended { OnOk result (R.ends reader.old < R.ends reader.new) }
    ensures devices { KeepFirsts R.at_first reader.old reader.new W.at_first writer.old writer.new }
{
    let pending = Pending::new(alloc)?;
    let line = Line::new(alloc);
    let held = Session::new(alloc);
    let mut workers = Workers { runtime, hands };
    let mut serving = Serving {
        session: held,
        pending,
        line,
    };
    while serve_line_with(
        alloc,
        &mut workers,
        reader,
        writer,
        &mut serving,
        journal,
        budget,
    )? {}
    let Workers {
        runtime: _runtime,
        hands,
    } = workers;
    Ok(hands)
}

/// Serves as `serve_here` does, by one thread for each hand, one of which is the caller's. Each hand is kept over all
/// requests and is returned with the journal. On Ok the bytes written are the replies that one thread gets by
/// evaluating the present files from scratch. The order in which threads take and make turns does not matter. Each run
/// in the journal is of a node never settled before, or with a recorded dependency whose value has differed since. The
/// hands' turns have grown by the journal's. After a stop the hands are dropped.
pub fn serve<H: LoadRules + Send + Drop, T: Threads + Wait + Sync, R: Input, W: Output>(
    runtime: &T,
    alloc: Global,
    reader: &mut R,
    writer: &mut W,
    hands: Vec<H>,
    budget: u64,
) -> Result<(Vec<H>, Journal), ServeStop>
    requires { IsHandCount (length hands.items) }
    ensures hands { IfOk result (λ done. ReturnsHands H.turns hands done.0 done.1.items) }
    ensures ok { IfOk result (λ done. Served budget (R.told reader.old) (R.told reader.new)
        (W.held writer.old) (W.held writer.new) done.1.items) }
    ensures err { OnErr result (Stopped (R.ends reader.old) (R.ends reader.new) (R.told reader.old)
        (R.told reader.new) (W.held writer.old) (W.held writer.new)) }
    ensures read { IsErrOf result ServeStop.Read → R.failures reader.old < R.failures reader.new }
    ensures write { IsErrOf result ServeStop.Write → W.failures writer.old < W.failures writer.new }
    ensures ended { OnOk result (R.ends reader.old < R.ends reader.new) }
    ensures devices { KeepFirsts R.at_first reader.old reader.new W.at_first writer.old writer.new }
{
    let mut journal = Vec::new(alloc);
    let back = serve_with(runtime, alloc, reader, writer, hands, budget, &mut journal)?;
    Ok((back, journal))
}

/// The turns of node functions that one request may take.
pub const BUDGET: u64 = 10_000_000;

// Reads the words of the program.
fn read_words<'a, S: AsStr>(alloc: Global, words: &'a [S]) -> Result<ArgMatches<'a>, clap::Error> {
    let workers = Arg::new(alloc, "workers")
        .long("workers")
        .value_name("N")
        .value_parser(value_parser!(u8).range(1..=16))
        .default_value("1")
        .help("How many worker threads evaluate a request");
    let runs = Arg::new(alloc, "runs")
        .long("runs")
        .action(ArgAction::SetTrue)
        .help("Tell on standard error at the end what was read and run");
    let events = Arg::new(alloc, "events")
        .long("events")
        .value_name("FILE")
        .help("Tell in a file of each line what it came to, what was read and run, and why");
    let run = Command::new(alloc, "run")
        .about(
            "Serves commands of standard input, a JSON object a line, with answers on standard output",
        )
        .arg(workers)?
        .arg(runs)?
        .arg(events)?;
    let loader = Command::new(alloc, "loader")
        .about("A resident loader of packages")
        .subcommand_required(true)
        .subcommand(run)?;
    loader.try_get_matches_from(words)
}

// Returns whether the words ask for the journal.
fn wants_runs(matches: &ArgMatches<'_>) -> bool {
    match matches.subcommand() {
        Some((_, run)) => run.get_flag("runs"),
        None => false,
    }
}

// Returns the file to which the words send events.
fn events_of<'a>(matches: &'a ArgMatches<'_>) -> Option<&'a str> {
    match matches.subcommand() {
        Some((_, run)) => run.get_str("events"),
        None => None,
    }
}

// What the words ask of serving: by how many threads it evaluates, and whether it writes the journal at the end.
#[derive(Drop)]
struct ServeOptions {
    count: usize,
    wants_runs: bool,
}

// Returns how many workers the words ask for.
fn workers_of(matches: &ArgMatches<'_>) -> usize
    ensures { IsHandCount result }
{
    let told = match matches.subcommand() {
        Some((_, run)) => run.get_one::<u8>("workers").unwrap_or(1),
        None => 1,
    };
    usize::from(told).max(1).min(16)
}

// Makes this many hands, which have made no turn.
fn hands_of(alloc: Global, count: usize) -> Result<Vec<Loading>, AllocError>
    ensures { IfOk result (λ hands. length hands.items ≡ count) }
{
    let mut hands = Vec::new(alloc);
    for _ in 0..count {
        hands.push(Loading::new(alloc))?;
    }
    Ok(hands)
}

// Writes a line for each item of a journal: `read V KEY` for a leaf that was read at version V, and `run V KEY` for any
// other node. A fault of `errors` is ignored.
fn print_journal<E: Write>(alloc: Global, errors: &mut E, journal: &[Run]) -> Result<(), Memory> {
    for run in journal {
        let key = run.key.text(alloc)?;
        let word = if is_leaf(&run.key) { "read" } else { "run" };
        let _ = writeln!(errors, "{word} {} {key}", run.version);
    }
    Ok(())
}

// Writes why serving stopped, and returns the exit status. A fault of `errors` is ignored.
fn print_stop<E: Write>(errors: &mut E, stop: &ServeStop) -> u8
    ensures { result ≡ 3 }
{
    let _ = writeln!(errors, "stop: {stop}");
    3
}

// Serves on one thread, or on this many.
fn serve_lines<T: Threads + Wait + Sync, R: Input, W: Output, J: Runs>(
    runtime: &T,
    alloc: Global,
    count: usize,
    reader: &mut R,
    writer: &mut W,
    journal: &mut J,
) -> Result<(), ServeStop>
    requires count { IsHandCount count }
    requires none { J.kept journal.old ≡ [] }
    ensures ok { OnOk result (Served BUDGET (R.told reader.old) (R.told reader.new)
        (W.held writer.old) (W.held writer.new) (J.kept journal.new)) }
    ensures err { OnErr result (Stopped (R.ends reader.old) (R.ends reader.new) (R.told reader.old)
        (R.told reader.new) (W.held writer.old) (W.held writer.new)) }
    ensures ended { OnOk result (R.ends reader.old < R.ends reader.new) }
    ensures devices { KeepFirsts R.at_first reader.old reader.new W.at_first writer.old writer.new }
{
    if count == 1 {
        return serve_into(alloc, reader, writer, BUDGET, journal);
    }
    let hands = hands_of(alloc, count)?;
    let _back = serve_with(runtime, alloc, reader, writer, hands, BUDGET, journal)?;
    Ok(())
}

// Serves, writes why it stopped, and returns the exit status.
fn serve_to<T: Threads + Wait + Sync, R: Input, W: Output, E: Write, J: Runs>(
    runtime: &T,
    alloc: Global,
    count: usize,
    reader: &mut R,
    writer: &mut W,
    errors: &mut E,
    journal: &mut J,
) -> u8
    requires count { IsHandCount count }
    requires none { J.kept journal.old ≡ [] }
    ensures served { result ≡ 0 → (journal : List Run) × Served BUDGET (R.told reader.old)
        (R.told reader.new) (W.held writer.old) (W.held writer.new) journal }
    ensures ended { result ≡ 0 → R.ends reader.old < R.ends reader.new }
    ensures stopped { result ≡ 3 → Stopped (R.ends reader.old) (R.ends reader.new)
        (R.told reader.old) (R.told reader.new) (W.held writer.old) (W.held writer.new) }
    ensures status { (result ≡ 0) ⊎ (result ≡ 3) }
    ensures devices { KeepFirsts R.at_first reader.old reader.new W.at_first writer.old writer.new }
{
    match serve_lines(runtime, alloc, count, reader, writer, journal) {
        Ok(()) => 0,
        Err(stop) => print_stop(errors, &stop),
    }
}

// Writes the journal of a serving that ended with this status, and returns the exit status.
fn tell_after<E: Write>(alloc: Global, errors: &mut E, journal: &[Run], status: u8) -> u8
    ensures { (result ≡ status) ⊎ (result ≡ 3) }
{
    if status != 0 {
        return status;
    }
    match print_journal(alloc, errors, journal) {
        Ok(()) => 0,
        Err(error) => print_stop(errors, &ServeStop::Memory(error)),
    }
}

// Serves, writes the journal, and returns the exit status.
fn serve_and_tell<T: Threads + Wait + Sync, R: Input, W: Output, E: Write>(
    runtime: &T,
    alloc: Global,
    count: usize,
    reader: &mut R,
    writer: &mut W,
    errors: &mut E,
) -> u8
    requires { IsHandCount count }
    ensures served { result ≡ 0 → (journal : List Run) × Served BUDGET (R.told reader.old)
        (R.told reader.new) (W.held writer.old) (W.held writer.new) journal }
    ensures ended { result ≡ 0 → R.ends reader.old < R.ends reader.new }
    ensures stopped { result ≡ 3 → Stopped (R.ends reader.old) (R.ends reader.new)
        (R.told reader.old) (R.told reader.new) (W.held writer.old) (W.held writer.new) }
    ensures status { (result ≡ 0) ⊎ (result ≡ 3) }
    ensures devices { KeepFirsts R.at_first reader.old reader.new W.at_first writer.old writer.new }
{
    let mut journal: Vec<Run> = Vec::new(alloc);
    let status = serve_to(runtime, alloc, count, reader, writer, errors, &mut journal);
    tell_after(alloc, errors, journal.as_slice(), status)
}

// Serves, and returns the exit status. The runs are not kept.
fn serve_alone<T: Threads + Wait + Sync, R: Input, W: Output, E: Write>(
    runtime: &T,
    alloc: Global,
    count: usize,
    reader: &mut R,
    writer: &mut W,
    errors: &mut E,
) -> u8
    requires { IsHandCount count }
    ensures served { result ≡ 0 → (journal : List Run) × Served BUDGET (R.told reader.old)
        (R.told reader.new) (W.held writer.old) (W.held writer.new) journal }
    ensures ended { result ≡ 0 → R.ends reader.old < R.ends reader.new }
    ensures stopped { result ≡ 3 → Stopped (R.ends reader.old) (R.ends reader.new)
        (R.told reader.old) (R.told reader.new) (W.held writer.old) (W.held writer.new) }
    ensures status { (result ≡ 0) ⊎ (result ≡ 3) }
    ensures devices { KeepFirsts R.at_first reader.old reader.new W.at_first writer.old writer.new }
{
    let mut runs = GhostJournal::new();
    serve_to(runtime, alloc, count, reader, writer, errors, &mut runs)
}

// Writes that a write of an event failed, if one did. A fault of `errors` is ignored.
fn tell_failure<E: Write>(errors: &mut E, has_failed: bool) {
    if has_failed {
        let _ = writeln!(errors, "events: write");
    }
}

// Serves with events to a file, and returns the exit status. It writes the journal too if the options ask for it.
fn serve_events<T: Threads + Wait + Sync, R: Input, W: Output, E: Write, F: Write + Drop>(
    runtime: &T,
    alloc: Global,
    options: &ServeOptions,
    file: F,
    reader: &mut R,
    writer: &mut W,
    errors: &mut E,
) -> u8
    requires { IsHandCount options.now.count }
    ensures served { result ≡ 0 → (journal : List Run) × Served BUDGET (R.told reader.old)
        (R.told reader.new) (W.held writer.old) (W.held writer.new) journal }
    ensures ended { result ≡ 0 → R.ends reader.old < R.ends reader.new }
    ensures stopped { result ≡ 3 → Stopped (R.ends reader.old) (R.ends reader.new)
        (R.told reader.old) (R.told reader.new) (W.held writer.old) (W.held writer.new) }
    ensures status { (result ≡ 0) ⊎ (result ≡ 3) }
    ensures devices { KeepFirsts R.at_first reader.old reader.new W.at_first writer.old writer.new }
{
    let count = options.count;
    let events = Events::new(alloc, WriterOutput::new(file));
    if options.wants_runs {
        let runs: Vec<Run> = Vec::new(alloc);
        let mut journal = EventJournal::new(events, runs);
        let status = serve_to(runtime, alloc, count, reader, writer, errors, &mut journal);
        tell_failure(errors, journal.has_failed());
        return tell_after(alloc, errors, journal.journal().as_slice(), status);
    }
    let mut journal = EventJournal::new(events, GhostJournal::new());
    let status = serve_to(runtime, alloc, count, reader, writer, errors, &mut journal);
    tell_failure(errors, journal.has_failed());
    status
}

/// Runs the program `loader`: `words` are its words, its own name first. It serves the lines of `reader` to `writer`
/// and returns the exit status. The status is 0 if the reader has reported its end. The flag `--runs` then writes the
/// journal to `errors`, one line for each item, `run V KEY` or for a leaf `read V KEY`. The status is 2 for bad words,
/// found before any input is read, with the text of the fault on `errors`. It is 3 for a stop, with a line
/// `stop: read`, `stop: write`, `stop: budget` or `stop: memory` on `errors`. A fault of `errors` is ignored.
///
/// With `--events FILE` it writes a line of JSON to FILE for each line of the input, before the reply goes out. A file
/// that cannot be made is a bad word. Once a write to it has failed no more events are written, and at the end a line
/// `events: write` is written to `errors`; the status stays what it is.
pub fn command<T: Threads + Wait + Sync + Files, S: AsStr, R: Input, W: Output, E: Write>(
    runtime: &T,
    alloc: Global,
    words: &[S],
    reader: &mut R,
    writer: &mut W,
    errors: &mut E,
) -> u8
    ensures served { result ≡ 0 → (journal : List Run) × Served BUDGET (R.told reader.old)
        (R.told reader.new) (W.held writer.old) (W.held writer.new) journal }
    ensures ended { result ≡ 0 → R.ends reader.old < R.ends reader.new }
    ensures stopped { result ≡ 3 → Stopped (R.ends reader.old) (R.ends reader.new)
        (R.told reader.old) (R.told reader.new) (W.held writer.old) (W.held writer.new) }
    ensures bad_words { result ≡ 2 → (R.told reader.new ≡ R.told reader.old)
        × (W.held writer.new ≡ W.held writer.old) }
    ensures status { (result ≡ 0) ⊎ (result ≡ 2) ⊎ (result ≡ 3) }
    ensures devices { KeepFirsts R.at_first reader.old reader.new W.at_first writer.old writer.new }
{
    match read_words(alloc, words) {
        Ok(matches) => {
            let options = ServeOptions {
                count: workers_of(&matches),
                wants_runs: wants_runs(&matches),
            };
            if let Some(path) = events_of(&matches) {
                return match fs::create(runtime, path) {
                    Ok(file) => {
                        serve_events(runtime, alloc, &options, file, reader, writer, errors)
                    }
                    Err(error) => {
                        let _ = writeln!(errors, "error: {path}: {error}");
                        2
                    }
                };
            }
            if options.wants_runs {
                return serve_and_tell(runtime, alloc, options.count, reader, writer, errors);
            }
            serve_alone(runtime, alloc, options.count, reader, writer, errors)
        }
        Err(error) => {
            if error.kind() == ErrorKind::OutOfMemory {
                let _ = writeln!(errors, "stop: memory");
                return 3;
            }
            let _ = write!(errors, "{error}");
            2
        }
    }
}
