//! Evaluates a file: how it begins, goes on and waits, and what it leaves.
ghost use Rattle.std.specs.Prelude.{◌≡◌, ◌++◌, zip, map, IfOk, OnOk, ℕ, List};
ghost use Rattle.syntax_tree.specs.Statements.{file_of, load_of};
ghost use Rattle.evaluator_semantics.specs.World.{at_line};
ghost use Rattle.evaluator_semantics.specs.Files.{all_steps, start, loads, leaves, file_level};
ghost use Rattle.evaluator_state.specs.View.{world_of, here_of, Ran};
ghost use Rattle.evaluator.specs.Machines.{env_of, Stops};
ghost use Rattle.evaluator.specs.Files.{Stands, HasTables, answered, shared_texts, load_does, opens, Opened};
ghost use Rattle.evaluator.specs.Outcomes.{Evaluates, IsLeft, Shows};

use crate::machine::{Environment, Machine, Progress, Stop};
use crate::outcome::{Fault, Outcome, Parts, Suspended};
use crate::setting::{Tables, functions_in};
use crate::turning::go;
use base_types::{Memory, Text};
use evaluator_calls::{file_block, frozen_module, load_items};
use evaluator_frames::Control;
use evaluator_package_calls::{Answers, GlobResult, targets_made};
use evaluator_state::{
    Block, DefaultsTable, FileNames, Files, PackageTargets, Position, State, tick,
};
use std::alloc::Global;
use std::sync::Arc;
use syntax_grammar::FileKind;
use syntax_tree::{File, LoadStmt};
use values_heap::{Halt, Heap};
use values_modules::{Module, ModuleValue};
use values_semantics::faults;

// The calls of functions that may be open at once.
const OPEN_CALLS: usize = 64;

// The steps of an evaluation.
const STEPS: u64 = 1000000;

/// Returns where the statements of a file stand; each has its own line.
pub fn level(e: &Environment) -> Result<Position, Memory>
    ensures { IfOk result
        (λ at. at ≡ record {
          label = e.now.label;
          path = e.now.path;
          kind = e.now.package.kind;
          line
              = 0;
        }) }
{
    Ok(Position {
        label: e.label.share()?,
        path: e.path.share()?,
        kind: e.package.kind,
        line: 0,
    })
}

/// Makes a state in which no name is bound, and all steps are left.
pub fn first_state(alloc: Global, e: &Environment) -> Result<State, Memory>
    ensures { IfOk result (λ state. world_of state ≡ start all_steps (env_of e.now)) }
{
    let slots = match file_block(alloc, &e.file) {
        Ok(slots) => slots,
        Err(Halt::Memory(error)) => return Err(error),
        Err(Halt::Code(_)) => unreachable!(),
    };
    let block = Block::new(slots)?;
    let label = e.label.share()?;
    let mut files = Files::new(alloc);
    files.add(FileNames {
        label,
        block,
        defaults: DefaultsTable::new(alloc),
    })?;
    Ok(State {
        heap: Heap::new(alloc, STEPS),
        blocks: Vec::new(alloc),
        files,
        targets: PackageTargets::new(alloc),
    })
}

// Returns why a statement in a line of the file stops.
fn stop_in(at: &Position, line: usize, halt: Halt) -> Stop
    ensures { Stops at.now.path line halt result }
{
    match halt {
        Halt::Code(code) => match at.path.share() {
            Ok(path) => Stop::Fault { code, path, line },
            Err(error) => Stop::Memory(error),
        },
        Halt::Memory(error) => Stop::Memory(error),
    }
}

// Takes a step for a load statement, and binds its names.
fn bind_load(state: &mut State, at: &Position, body: &Module, load: &LoadStmt) -> Result<(), Halt>
    ensures { (line : ℕ) (running : List (List ℕ × List ℕ)) → let here = here_of at.now line running
        in Ran (at_line load.now.line here).site
        (load_does body.now (load_of load.now) here (world_of state.old)) result
        (world_of state.new) }
{
    if let Err(halt) = tick(&mut state.heap) {
        return Err(halt);
    }
    load_items(state, at, body, load.items.as_slice())
}

// Binds the names of the load statements of a file, in order. A load without a module is fault 18.
fn bind_loads(
    state: &mut State,
    at: &Position,
    statements: &[LoadStmt],
    modules: &[ModuleValue],
) -> Result<(), Stop>
    ensures { (running : List (List ℕ × List ℕ)) → let here = here_of at.now at.now.line running in
        Opened (loads (map load_of statements.now) modules.now here (world_of state.old)) result
        (world_of state.new) }
{
    for i in 0..statements.len() {
        let load = &statements[i];
        let Some(loaded) = modules.get(i) else {
            return Err(stop_in(at, load.line, Halt::Code(faults::NOT_EXPORTED)));
        };
        if let Err(halt) = bind_load(state, at, loaded.body(), load) {
            return Err(stop_in(at, load.line, halt));
        }
    }
    Ok(())
}

/// Runs what stands before the other statements of a file: a first statement that is one string alone, and the loads.
pub fn open_file(
    state: &mut State,
    at: &Position,
    file: &File,
    modules: &[ModuleValue],
) -> Result<(), Stop>
    ensures { (running : List (List ℕ × List ℕ)) → let here = here_of at.now at.now.line running in
        Opened (opens (file_of file.now) modules.now here (world_of state.old)) result
        (world_of state.new) }
{
    if let Some(line) = file.leading {
        if let Err(halt) = tick(&mut state.heap) {
            return Err(stop_in(at, line, halt));
        }
    }
    bind_loads(state, at, file.loads.as_slice(), modules)
}

/// Returns the outcome of a fault, or `Memory` if memory was refused.
pub fn stopped(stop: Stop) -> Result<Outcome, Memory>
    ensures { Shows stop result }
{
    match stop {
        Stop::Fault { code, path, line } => Ok(Outcome::Fault(Fault { code, path, line })),
        Stop::Memory(error) => Err(error),
    }
}

// Freezes and returns the module that a .bzl file leaves. A fault at its end has line 0.
fn leave_module(state: &mut State, e: &Environment) -> Result<Outcome, Memory>
    ensures { let env = env_of e.now in
        IsLeft (leaves FileKind.Bzl env (file_level env) (world_of state.old)) result }
{
    let at = level(e)?;
    match frozen_module(state, &at, &e.file, e.loads.as_slice()) {
        Ok(loaded) => Ok(Outcome::Module(loaded)),
        Err(halt) => stopped(stop_in(&at, 0, halt)),
    }
}

/// Returns what a file leaves once its statements have ended: a .bzl file its module, and a BUILD file its targets.
pub fn leave_file(state: State, e: &Environment) -> Result<Outcome, Memory>
    ensures { let env = env_of e.now in
        IsLeft (leaves env.kind env (file_level env) (world_of state)) result }
{
    let mut state = state;
    match e.package.kind {
        FileKind::Bzl => leave_module(&mut state, e),
        FileKind::Build => {
            let targets = targets_made(state.heap.alloc, &state)?;
            Ok(Outcome::Package(targets))
        }
    }
}

// Returns the same texts, shared.
fn share_all(alloc: Global, texts: &[Text]) -> Result<Vec<Text>, Memory>
    ensures { IfOk result (λ shared. shared.items ≡ texts.now) }
{
    let mut shared = Vec::new(alloc);
    for text in texts.iter() {
        shared.push(text.share()?)?;
    }
    Ok(shared)
}

// Adds answers to patterns, behind the earlier ones.
fn add_answers(
    answers: &mut Answers,
    patterns: &[Text],
    results: &[Arc<Vec<Text>, Global>],
) -> Result<(), Memory>
    ensures { OnOk result (answers.new ≡ answers.old ++ zip patterns.now
        (map shared_texts results.now)) }
{
    for i in 0..patterns.len().min(results.len()) {
        let pattern = patterns[i].share()?;
        let paths = Arc::try_clone(&results[i])?;
        answers.add(GlobResult { pattern, paths })?;
    }
    Ok(())
}

// Goes on with the evaluation of a file.
fn go_on(
    environment: Environment,
    tables: Tables,
    machine: Machine,
    control: Control,
) -> Result<Outcome, Memory>
    requires stands { Stands environment machine control }
    requires tables { HasTables environment tables }
    ensures { Evaluates (env_of environment) result }
{
    let mut machine = machine;
    let (progress, tables) = go(&mut machine, &environment, tables, control);
    match progress {
        Ok(Progress::Waits(control, patterns)) => {
            let alloc = machine.state.heap.alloc;
            let asked = share_all(alloc, patterns.as_slice())?;
            let parts = Parts {
                environment,
                tables,
                machine,
                control,
            };
            let parts = Box::new(alloc, parts)?;
            Ok(Outcome::Need(asked, Suspended { parts, patterns }))
        }
        Ok(Progress::Ended(_)) => leave_file(machine.state, &environment),
        Ok(Progress::Goes(_)) => unreachable!(),
        Err(stop) => stopped(stop),
    }
}

/// Evaluates a file, as the definition of the language says.
///
/// # Errors
///
/// Returns `Memory` if an allocation fails.
pub fn run(alloc: Global, environment: Environment) -> Result<Outcome, Memory>
    ensures { Evaluates (env_of environment) result }
{
    let at = level(&environment)?;
    let mut state = first_state(alloc, &environment)?;
    let loads = environment.loads.as_slice();
    if let Err(stop) = open_file(&mut state, &at, &environment.file, loads) {
        return stopped(stop);
    }
    let file = Arc::try_clone(&environment.file)?;
    let tables = functions_in(alloc, &environment)?;
    let machine = Machine {
        state,
        frames: Vec::new(alloc),
        at,
        running: Vec::new(alloc),
        left: OPEN_CALLS,
    };
    go_on(
        environment,
        tables,
        machine,
        Control::Tops { file, next: 0 },
    )
}

/// Goes on with an evaluation that waits, with an answer for each of its patterns, in order. The outcome is the same as
/// for the file with these answers behind its earlier ones.
///
/// # Errors
///
/// Returns `Memory` if an allocation fails. The evaluation that waited is then given up, and `run` gives the same
/// outcome again.
pub fn resume(suspended: Suspended, results: Vec<Arc<Vec<Text>, Global>>) -> Result<Outcome, Memory>
    ensures { Evaluates (answered (env_of suspended.environment) suspended.patterns
        (map shared_texts results.items)) result }
{
    let (parts, patterns) = suspended.into_parts();
    let Parts {
        mut environment,
        tables,
        machine,
        control,
    } = parts;
    add_answers(
        &mut environment.package.answers,
        patterns.as_slice(),
        results.as_slice(),
    )?;
    go_on(environment, tables, machine, control)
}
