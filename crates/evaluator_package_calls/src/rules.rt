//! The package calls: `package_name`, `glob`, and the rules filegroup, genrule, alias and test_suite.
ghost use Rattle.std.specs.Prelude.{◌≡◌, IfOk, OnOk, ◌≤◌, ◌+◌, ◌/◌, length, zip};
ghost use Rattle.std.specs.List.{sum_by};
ghost use Rattle.values_semantics.specs.Builtins.{builtin_name};
ghost use Rattle.evaluator_semantics.specs.World.{Here, World};
ghost use Rattle.evaluator_semantics.specs.Arguments.{plain_part, named_part};
ghost use Rattle.evaluator_semantics.specs.Rules.{rule, target_of, name_text};
ghost use Rattle.evaluator_semantics.specs.Environment.{Env};
ghost use Rattle.evaluator_semantics.specs.Globs.{glob};
ghost use Rattle.evaluator_semantics.specs.Packages.{package_call};
ghost use Rattle.values_heap.specs.View.{store_of, Says};
ghost use Rattle.evaluator_state.specs.View as view;
ghost use Rattle.evaluator_state.specs.View.{world_of, Ran};
ghost use Rattle.evaluator_package_calls.specs.Charges.{argument_bytes};
ghost use Rattle.evaluator_package_calls.specs.RuleArguments.{value_at, described, target_read};
ghost use Rattle.evaluator_package_calls.specs.View.{ChecksAs, IsOf, EndsAs, IfWaits};
ghost use Rattle.evaluator_package_calls.specs.Within.{within, named_package};

use crate::answering::{glob_paths, make_paths, make_text, queries_without_result};
use crate::answers::Answers;
use crate::arguments::{named_part, named_values, plain_part};
use crate::attributes::{all_read, are_typed};
use crate::charging::charge_arguments;
use crate::fields::{FIELDS, Field, fields_of};
use crate::globbing::{questions, read_call};
use crate::kinds::{CallResult, Package};
use crate::slots::{take_arguments, value_at};
use crate::spelling::is_path;
use crate::strings::text_at;
use base_types::{Text, pair_ok};
use evaluator_state::{State, Target};
use syntax_grammar::FileKind;
use values_heap::{Builtin, Bytes, Halt, Heap, Val};
use values_semantics::faults;

/// Makes a package call, whose last arguments have the names. It returns a value, or the questions whose answers it
/// needs. In the second case nothing has changed, and the same call is made again when they are answered. Returns fault
/// 23 in a .bzl file. A rule has faults 25, 5, 15 and 20; `glob` has 25, 5, 21, 13 and 22; `package_name` has 25 and
/// 13.
pub fn package_call(
    state: &mut State,
    known: &Package,
    f: Builtin,
    xs: &[Val],
    names: &[Text],
) -> Result<CallResult, Halt>
    ensures says { (env : Env) (here : Here) → IsOf known.now env → EndsAs here.site
        (package_call env f (plain_part xs.now names.now) (named_part xs.now names.now) here
        (world_of state.old)) result (world_of state.new) }
    ensures waits { IfWaits result (state.new ≡ state.old) }
    ensures steps { IfOk result (λ _. state.new.heap.steps ≤ state.old.heap.steps) }
{
    match known.kind {
        FileKind::Bzl => Err(Halt::Code(faults::NOT_ALLOWED)),
        FileKind::Build => {
            let plain = plain_part(xs, names);
            let values = named_values(xs, names);
            in_package(state, known, f, plain, names, values)
        }
    }
}

// Makes a package call in a BUILD file.
fn in_package(
    state: &mut State,
    known: &Package,
    f: Builtin,
    xs: &[Val],
    names: &[Text],
    values: &[Val],
) -> Result<CallResult, Halt>
    ensures says { (here : Here) → EndsAs here.site
        (within known.now.name known.now.answers f xs.now
        (zip names.now values.now) here (world_of state.old)) result (world_of state.new) }
    ensures waits { IfWaits result (state.new ≡ state.old) }
    ensures steps { IfOk result (λ _. state.new.heap.steps ≤ state.old.heap.steps) }
{
    match f {
        Builtin::PackageName => {
            match package_name(&mut state.heap, &known.name, xs, names, values) {
                Ok(name) => Ok(CallResult::Value(name)),
                Err(halt) => Err(halt),
            }
        }
        Builtin::Glob => glob_call(&mut state.heap, &known.answers, xs, names, values),
        _ => match rule(state, f, &known.name, xs, names, values) {
            Ok(made) => Ok(CallResult::Value(made)),
            Err(halt) => Err(halt),
        },
    }
}

// Returns the name of the package, or fault 25 or 13. The named arguments come as their names and their values.
fn package_name(
    heap: &mut Heap,
    name: &Text,
    xs: &[Val],
    names: &[Text],
    values: &[Val],
) -> Result<Val, Halt>
    ensures says { Says (named_package name.now xs.now (zip names.now values.now)
        (store_of heap.old)) result (store_of heap.new) }
    ensures steps { IfOk result (λ _. heap.new.steps ≤ heap.old.steps) }
{
    let named = named_part(heap.alloc, names, values)?;
    name_of_package(heap, name, xs, named.as_slice())
}

// Returns the name of the package, or fault 25 or 13.
fn name_of_package(
    heap: &mut Heap,
    name: &Text,
    xs: &[Val],
    ns: &[(Text, Val)],
) -> Result<Val, Halt>
    ensures says { Says (named_package name.now xs.now ns.now (store_of heap.old)) result
        (store_of heap.new) }
    ensures steps { IfOk result (λ _. heap.new.steps ≤ heap.old.steps) }
{
    if !xs.is_empty() || !ns.is_empty() {
        return Err(Halt::Code(faults::WRONG_ARGUMENTS));
    }
    let made = make_text(heap, name)?;
    Ok(made)
}

// Calls `glob`, whose named arguments come as their names and their values.
fn glob_call(
    heap: &mut Heap,
    answers: &Answers,
    xs: &[Val],
    names: &[Text],
    values: &[Val],
) -> Result<CallResult, Halt>
    ensures says { (here : Here) (w : World) → w.store ≡ store_of heap.old → EndsAs here.site
        (glob answers.now xs.now (zip names.now values.now) here w) result
        (record w { store = store_of heap.new }) }
    ensures waits { IfWaits result (heap.new ≡ heap.old) }
    ensures steps { IfOk result (λ _. heap.new.steps ≤ heap.old.steps) }
{
    let named = named_part(heap.alloc, names, values)?;
    glob(heap, answers, xs, named.as_slice())
}

// Calls `glob`.
fn glob(
    heap: &mut Heap,
    answers: &Answers,
    xs: &[Val],
    ns: &[(Text, Val)],
) -> Result<CallResult, Halt>
    ensures says { (here : Here) (w : World) → w.store ≡ store_of heap.old → EndsAs here.site
        (glob answers.now xs.now ns.now here w) result
        (record w { store = store_of heap.new }) }
    ensures waits { IfWaits result (heap.new ≡ heap.old) }
    ensures steps { IfOk result (λ _. heap.new.steps ≤ heap.old.steps) }
{
    let asked = match read_call(heap, xs, ns) {
        Ok(asked) => asked,
        Err(halt) => return Err(halt),
    };
    let questions = questions(heap.alloc, asked.directories, asked.includes.as_slice())?;
    let open = queries_without_result(heap.alloc, answers, questions.as_slice())?;
    if !open.is_empty() {
        return Ok(CallResult::Need(open));
    }
    let paths = glob_paths(
        heap.alloc,
        answers,
        questions.as_slice(),
        asked.excludes.as_slice(),
    )?;
    match make_paths(heap, asked.allow_empty, paths.as_slice()) {
        Ok(made) => Ok(CallResult::Value(made)),
        Err(halt) => Err(halt),
    }
}

/// Calls a rule, which makes a target and returns None, or returns fault 25, 5, 15 or 20, in this order. The heap is
/// charged for copies of the arguments, since the target keeps texts of its own.
pub fn rule(
    state: &mut State,
    f: Builtin,
    package_name: &Text,
    xs: &[Val],
    names: &[Text],
    values: &[Val],
) -> Result<Val, Halt>
    ensures says { (here : Here) → Ran here.site
        (rule f package_name.now xs.now (zip names.now values.now) here (world_of state.old))
        result (world_of state.new) }
    ensures store { store_of state.new.heap ≡ store_of state.old.heap }
    ensures charged { OnOk result (state.new.heap.held ≡ state.old.heap.held + sum_by
        (argument_bytes (length package_name.now / 16) (store_of state.old.heap)) values.now) }
{
    charge_arguments(&mut state.heap, package_name.as_str().len() / 16, values)?;
    let target = match target_of(&state.heap, f, package_name, xs, names, values) {
        Ok(target) => target,
        Err(halt) => return Err(halt),
    };
    if !state.targets.add(target)? {
        return Err(Halt::Code(faults::TARGET_TWICE));
    }
    Ok(Val::Nothing)
}

// Returns the target that a call describes, or fault 25, 5 or 15.
fn target_of(
    heap: &Heap,
    f: Builtin,
    package_name: &Text,
    xs: &[Val],
    names: &[Text],
    values: &[Val],
) -> Result<Target, Halt>
    ensures { ChecksAs view.target_of
        (target_of f package_name.now xs.now (zip names.now values.now) (store_of heap.now))
        result }
{
    let fields = fields_of(f);
    let mut slots = [None; FIELDS];
    if !xs.is_empty() {
        return Err(Halt::Code(faults::WRONG_ARGUMENTS));
    }
    if !take_arguments(heap.alloc, fields, names, values, &mut slots)? {
        return Err(Halt::Code(faults::WRONG_ARGUMENTS));
    }
    target_from(heap, f, package_name, fields, &slots)
}

// Returns the target that arguments at their places describe, of a rule with these attributes, or fault 25, 5 or 15.
fn target_from(
    heap: &Heap,
    f: Builtin,
    package_name: &Text,
    fields: &[Field],
    slots: &[Option<Val>; FIELDS],
) -> Result<Target, Halt>
    ensures { ChecksAs view.target_of
        (described f package_name.now fields.now slots.now (store_of heap.now)) result }
{
    let name = match name_at(heap, slots) {
        Ok(name) => name,
        Err(halt) => return Err(halt),
    };
    match are_typed(heap, fields, slots) {
        Ok(()) => make_target(heap, f, package_name, name, fields, slots),
        Err(halt) => Err(halt),
    }
}

// Returns the name of a target, or fault 25 or 5.
fn name_at<'a>(heap: &'a Heap, slots: &[Option<Val>; FIELDS]) -> Result<&'a Bytes, Halt>
    ensures { ChecksAs (λ b. b.now)
        (name_text (value_at slots.now Field.Name) (store_of heap.now)) result }
{
    match value_at(slots, Field::Name) {
        Some(x) => text_at(heap, x),
        None => Err(Halt::Code(faults::WRONG_ARGUMENTS)),
    }
}

// Makes the target with a name and attributes, or returns fault 5 or 15.
fn make_target(
    heap: &Heap,
    f: Builtin,
    package_name: &Text,
    name: &Bytes,
    fields: &[Field],
    slots: &[Option<Val>; FIELDS],
) -> Result<Target, Halt>
    ensures { ChecksAs view.target_of (target_read (builtin_name f) package_name.now name.now
        fields.now slots.now (store_of heap.now)) result }
{
    if !is_path(name.as_slice()) {
        return Err(Halt::Code(faults::BAD_LABEL));
    }
    let attributes = all_read(heap, package_name, fields, slots)?;
    let (attributes, name) = pair_ok(attributes, name.share())?;
    Ok(Target {
        rule: f,
        name,
        attributes,
    })
}
