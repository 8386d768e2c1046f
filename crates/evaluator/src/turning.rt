//! Turns of a machine, until it ends or waits.
ghost use Rattle.std.specs.Prelude.{◌≡◌, ◌<◌, ◌+◌, ◌++◌, ◌∷◌, [], true, false, IfOk, OnErr};
ghost use Rattle.evaluator_semantics.specs.Environment.{Env};
ghost use Rattle.evaluator_state.specs.View.{world_of};
ghost use Rattle.evaluator_frames.specs.declared.frame.Control.TheVariants as c;
ghost use Rattle.evaluator_frames.specs.Frames.{Goes, on, control_line, is_leave, machine_does};
ghost use Rattle.evaluator_frames.specs.Weight.{frames_weight};
ghost use Rattle.evaluator.specs.Files.{HasTables};
ghost use Rattle.evaluator.specs.Machines.{Leads, Stops, TurnFalls, Lightens, StaysLight, Falls, StepsFall, IsOver, IsActing, means, here_in};

use crate::acting::{added, begin_block, built_in, define, of_value};
use crate::entering::{enter, leave};
use crate::machine::{Environment, Machine, Progress, Stop};
use crate::setting::{Setting, Tables};
use crate::tidying::tidy;
use base_types::Text;
use evaluator_frames::{Control, Frame, Signal, control_line, frame_line, go_on, hand_down};
use evaluator_package_calls::{CallResult, package_call};
use evaluator_state::{Position, Slot};
use std::alloc::Global;
use std::sync::Arc;
use values_heap::{Builtin, Halt, Val};

// Returns why a part in a line stops.
fn stop(m: &Machine, line: usize, halt: Halt) -> Stop
    ensures { Stops m.now.at.path line halt result }
{
    match halt {
        Halt::Code(code) => match m.at.path.share() {
            Ok(path) => Stop::Fault { code, path, line },
            Err(error) => Stop::Memory(error),
        },
        Halt::Memory(error) => Stop::Memory(error),
    }
}

// Makes one turn of a control that is neither a signal, nor a call of a function of a file, nor a package call.
fn act(m: &mut Machine, control: Control) -> Result<Control, Halt>
    ensures goes { (env : Env)
        → Goes (on env m.old.left (here_in m.old) (control_line m.old.at.line control)).site
        (means env m.old control) result (λ next. means env m.new next) }
    ensures falls { IsActing control → IfOk result (λ next. Falls m.old control m.new next) }
    ensures stands { OnErr result (m.new.at ≡ m.old.at) }
{
    match control {
        Control::First {
            line,
            target,
            of,
            value: x,
        } => { begin_block(&mut m.state, &mut m.frames, line, target, of, x) }
        Control::Builtin {
            line,
            function: f,
            arguments: xs,
            names,
        } => built_in(&mut m.state, line, f, xs, names),
        Control::Method { line, call } => of_value(&mut m.state, line, call),
        Control::Add {
            line,
            aim,
            old: x,
            right: y,
        } => added(&mut m.state, &m.at, line, aim, x, y),
        Control::Define {
            line,
            def,
            defaults: xs,
        } => define(&mut m.state, &m.at, line, &def, xs),
        control => go_on(&mut m.state, &mut m.frames, &m.at, control),
    }
}

// Makes one turn of a control that is neither a signal, nor a call of a function of a file, nor a package call. A fault is
// shown with its line.
fn act_on(m: &mut Machine, e: &Setting<'_>, control: Control) -> Result<Progress, Stop>
    ensures leads { Leads e.now (λ env. means env m.old control) result m.new }
    ensures falls { IsActing control
        → IfOk result (λ turned. TurnFalls m.old control m.new turned) }
{
    let line = control_line(&control, m.at.line);
    match act(m, control) {
        Ok(next) => Ok(Progress::Goes(next)),
        Err(halt) => Err(stop(m, line, halt)),
    }
}

// Returns whether a control is neither a signal, nor a call of a function of a file, nor a package call.
fn is_acting(control: &Control) -> bool
    ensures { result ≡ true → IsActing control.now }
{
    match control {
        Control::Signal(_) => false,
        Control::Enter { .. } => false,
        Control::Package { .. } => false,
        _ => true,
    }
}

// Goes on at once with what the first part of a turn leads to, if that is within a function or a file.
fn led(m: &mut Machine, e: &Setting<'_>, control: Control) -> Result<Progress, Stop>
    ensures leads { Leads e.now (λ env. means env m.old control) result m.new }
    ensures falls { IfOk result (λ turned. StaysLight m.old control m.new turned) }
{
    if is_acting(&control) {
        act_on(m, e, control)
    } else {
        Ok(Progress::Goes(control))
    }
}

// Begins a call of a function of a file, and goes on with its body at once.
fn begin_call(
    m: &mut Machine,
    e: &Setting<'_>,
    line: usize,
    place: usize,
    xs: Vec<Val>,
    names: Arc<Vec<Text>, Global>,
) -> Result<Progress, Stop>
    ensures leads { Leads e.now (λ env. means env m.old (c.Enter line place xs names)) result
        m.new }
    ensures falls { IfOk result (λ turned. TurnFalls m.old (c.Enter line place xs names) m.new
        turned) }
{
    match enter(m, e, line, place, xs.as_slice(), names.as_slice()) {
        Ok(control) => led(m, e, control),
        Err(halt) => Err(stop(m, line, halt)),
    }
}

// Hands a signal to a frame that was the topmost, and is not the end of a call.
fn hand_to(m: &mut Machine, e: &Setting<'_>, frame: Frame, signal: Signal) -> Result<Progress, Stop>
    requires { is_leave frame ≡ false }
    ensures leads { Leads e.now (λ env. machine_does env m.old.left (here_in m.old)
        (c.Signal signal) (m.old.frames.items ++ frame ∷ []) (world_of m.old.state)) result m.new }
    ensures falls { IfOk result
        (λ turned. Lightens m.old (frames_weight (m.old.frames.items ++ frame ∷ [])) m.new
        turned) }
{
    let line = frame_line(&frame, m.at.line);
    match hand_down(&mut m.state, &mut m.frames, &m.at, frame, signal) {
        Ok(control) => led(m, e, control),
        Err(halt) => Err(stop(m, line, halt)),
    }
}

// Hands what a call gives to the topmost frame. If that is the end of another call, that call ends, too.
fn hand_back(m: &mut Machine, e: &Setting<'_>, signal: Signal) -> Result<Progress, Stop>
    ensures leads { Leads e.now (λ env. means env m.old (c.Signal signal)) result m.new }
    ensures falls { IfOk result (λ turned. TurnFalls m.old (c.Signal signal) m.new turned) }
{
    match m.frames.pop() {
        Some(Frame::Leave(caller)) => {
            let given = leave(m, caller, signal);
            Ok(Progress::Goes(Control::Signal(given)))
        }
        Some(frame) => hand_to(m, e, frame, signal),
        None => Ok(Progress::Ended(signal)),
    }
}

// Hands a signal to the topmost frame.
fn hand(m: &mut Machine, e: &Setting<'_>, signal: Signal) -> Result<Progress, Stop>
    ensures leads { Leads e.now (λ env. means env m.old (c.Signal signal)) result m.new }
    ensures falls { IfOk result (λ turned. TurnFalls m.old (c.Signal signal) m.new turned) }
{
    match m.frames.pop() {
        Some(Frame::Leave(caller)) => {
            let given = leave(m, caller, signal);
            hand_back(m, e, given)
        }
        Some(frame) => hand_to(m, e, frame, signal),
        None => Ok(Progress::Ended(signal)),
    }
}

// Makes a package call.
fn call_package(
    m: &mut Machine,
    e: &Setting<'_>,
    line: usize,
    f: Builtin,
    xs: Vec<Val>,
    names: Arc<Vec<Text>, Global>,
) -> Result<Progress, Stop>
    ensures leads { Leads e.now (λ env. means env m.old (c.Package line f xs names)) result m.new }
    ensures falls { IfOk result (λ turned. TurnFalls m.old (c.Package line f xs names) m.new
        turned) }
{
    match package_call(
        &mut m.state,
        &e.given().package,
        f,
        xs.as_slice(),
        names.as_slice(),
    ) {
        Ok(CallResult::Value(value)) => Ok(Progress::Goes(Control::Signal(Signal::Value(value)))),
        Ok(CallResult::Need(patterns)) => {
            let call = Control::Package {
                line,
                function: f,
                arguments: xs,
                names,
            };
            Ok(Progress::Waits(call, patterns))
        }
        Err(halt) => Err(stop(m, line, halt)),
    }
}

// Makes one turn.
fn turn(m: &mut Machine, e: &Setting<'_>, control: Control) -> Result<Progress, Stop>
    ensures leads { Leads e.now (λ env. means env m.old control) result m.new }
    ensures falls { IfOk result (λ turned. TurnFalls m.old control m.new turned) }
{
    match control {
        Control::Signal(signal) => hand(m, e, signal),
        Control::Package {
            line,
            function: f,
            arguments: xs,
            names,
        } => call_package(m, e, line, f, xs, names),
        Control::Enter {
            line,
            place,
            arguments: xs,
            names,
        } => begin_call(m, e, line, place, xs, names),
        control => act_on(m, e, control),
    }
}

// Makes turns until a step is paid for, or until the machine ends or waits.
fn stretch(m: &mut Machine, e: &Setting<'_>, control: Control) -> Result<Progress, Stop>
    ensures leads { Leads e.now (λ env. means env m.old control) result m.new }
    ensures fewer { IfOk result (λ turned. StepsFall m.old m.new turned) }
{
    let before = m.state.heap.steps;
    let mut control = control;
    loop {
        match turn(m, e, control)? {
            Progress::Goes(next) => {
                if m.state.heap.steps < before {
                    return Ok(Progress::Goes(next));
                }
                control = next;
            }
            ended => return Ok(ended),
        }
    }
}

// Makes turns until the machine ends or waits, and gives objects back between them.
fn stretches(m: &mut Machine, e: &mut Setting<'_>, control: Control) -> Result<Progress, Stop>
    ensures leads { Leads e.old (λ env. means env m.old control) result m.new }
    ensures over { IfOk result IsOver }
    ensures given { e.new ≡ e.old }
{
    let mut control = control;
    loop {
        match stretch(m, e, control)? {
            Progress::Goes(next) => {
                if let Err(error) = tidy(m, &next) {
                    return Err(Stop::Memory(error));
                }
                if let Err(error) = e.put_together(m.state.heap.alloc) {
                    return Err(Stop::Memory(error));
                }
                control = next;
            }
            ended => return Ok(ended),
        }
    }
}

/// Makes turns until the machine ends or waits. Returns how far they lead, and the tables of the file.
pub fn go(
    m: &mut Machine,
    e: &Environment,
    tables: Tables,
    control: Control,
) -> (Result<Progress, Stop>, Tables)
    requires { HasTables e.now tables }
    ensures leads { Leads e.now (λ env. means env m.old control) result.0 m.new }
    ensures over { IfOk result.0 IsOver }
    ensures tables { HasTables e.now result.1 }
{
    let mut setting = Setting::new(e, tables);
    let progress = stretches(m, &mut setting, control);
    (progress, setting.into_tables())
}
