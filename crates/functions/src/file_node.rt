//! The node functions of .bzl files and of packages: a file, what it loads, and what its node asks for and ends with.
ghost use Rattle.std.specs.Prelude.{◌≡◌, ◌++◌, IfOk, OnOk, Ok, Some, map, option_map};
ghost use Rattle.keys.specs.declared.key.Key.TheVariants as key;
ghost use Rattle.std.specs.Arc.{arc_value};
ghost use Rattle.std.specs.List.{list_any};
ghost use Rattle.functions_directories.specs.Globs.{has_build as holds_build};
ghost use Rattle.syntax_tree.specs.Statements.{file_of, load_of};
ghost use Rattle.engine_semantics.specs.Reply.{Ask};
ghost use Rattle.syntax_grammar.specs.Files.{parse_of};
ghost use Rattle.keys.specs.Turns.{values};
ghost use Rattle.functions.specs.Modules as modules;
ghost use Rattle.functions.specs.Packages as packages;
ghost use Rattle.functions.specs.Sources as specs;
ghost use Rattle.functions.specs.Goes.{IsMade, table_of};
ghost use Rattle.functions.specs.declared.reply.Continuation.TheVariants as continuation;
ghost use Rattle.functions.specs.Replies.{IsReply};
ghost use Rattle.functions.specs.Results.{IsAll, IsParsed};

use crate::evaluating::evaluate_file;
use crate::once::{answer_of, distinct_keys, first_places};
use crate::reply::{Continuation, FileLoads, FileTurn};
use crate::source::Source;
use base_types::{Memory, Text};
use functions_directories::{build_path, has_build};
use keys::{BuildName, Fault, Key, Value};
use labels::{BadLabel, Label};
use std::alloc::Global;
use std::collections::BTreeMap;
use std::sync::Arc;
use syntax::{File, FileKind, Refused, parse};
use syntax_tree::LoadStmt;
use values_modules::ModuleValue;
use values_semantics::faults;

/// Makes a fault of a file.
pub fn fault_at(code: u64, path: &Text, line: usize) -> Result<Fault, Memory>
    ensures { IfOk result (λ f. f ≡ specs.fault_at code path.now line) }
{
    Ok(Fault {
        code,
        path: path.share()?,
        line,
    })
}

/// Returns the tree of a file, or the fault of its text.
pub fn read_tree(alloc: Global, source: &Source, text: &Text) -> Result<Result<File, Fault>, Memory>
    ensures { IfOk result (IsParsed source.now.path (parse_of source.now.kind text.now)) }
{
    match parse(alloc, text.as_str().as_bytes(), source.kind) {
        Ok(file) => Ok(Ok(file)),
        Err(Refused::Syntax { code, line }) => Ok(Err(fault_at(code, &source.path, line)?)),
        Err(Refused::Memory(error)) => Err(error),
    }
}

// Returns the key of the module that a load names, or fault 15.
fn load_key(alloc: Global, source: &Source, load: &LoadStmt) -> Result<Result<Key, Fault>, Memory>
    ensures { IfOk result (λ r. r ≡ specs.load_key source.now (load_of load.now)) }
{
    match Label::read(alloc, load.label.as_str(), source.package_name.as_str()) {
        Ok(label) => {
            if label.is_module() {
                Ok(Ok(Key::Module(label.text().share()?)))
            } else {
                Ok(Err(fault_at(faults::BAD_LABEL, &source.path, load.line)?))
            }
        }
        Err(BadLabel::Code15) => Ok(Err(fault_at(faults::BAD_LABEL, &source.path, load.line)?)),
        Err(BadLabel::Memory(error)) => Err(error),
    }
}

/// Returns the keys of the modules that loads name, in order, or fault 15 of the first that names none.
pub fn load_keys(
    alloc: Global,
    source: &Source,
    loads: &[LoadStmt],
) -> Result<Result<Vec<Key>, Fault>, Memory>
    ensures { IfOk result
        (IsAll (specs.each_or_fault (specs.load_key source.now) (map load_of loads.now))) }
{
    let mut all = Vec::new(alloc);
    for load in loads {
        match load_key(alloc, source, load)? {
            Ok(key) => all.push(key)?,
            Err(fault) => return Ok(Err(fault)),
        }
    }
    Ok(Ok(all))
}

// Returns the same module with those that it reaches, shared.
fn share_loaded(alloc: Global, loaded: &ModuleValue) -> Result<ModuleValue, Memory>
    ensures { IfOk result (λ l. l ≡ loaded.now) }
{
    let mut reached = Vec::with_capacity(alloc, loaded.reachable().len())?;
    for module in loaded.reachable() {
        reached.push(module.share()?)?;
    }
    Ok(ModuleValue::new(loaded.body().share()?, reached))
}

// Returns the module that a load gives, or its fault unchanged.
fn module_in(
    alloc: Global,
    path: &Text,
    answer: Option<&Value>,
) -> Result<Result<ModuleValue, Fault>, Memory>
    ensures { IfOk result
        (λ r. r ≡ specs.module_in path.now (option_map (λ v. v.now) answer.entry)) }
{
    match answer {
        Some(Value::Module(loaded)) => Ok(Ok(share_loaded(alloc, loaded)?)),
        Some(Value::Fault(fault)) => Ok(Err(fault.share()?)),
        _ => Ok(Err(fault_at(faults::NO_MODULE, path, 0)?)),
    }
}

// Returns the modules of loads, in order, by the keys' places, or the fault of the first faulty one.
fn modules_in(
    alloc: Global,
    path: &Text,
    places: &BTreeMap<Key, usize>,
    keys: &[Key],
    answers: &[Arc<Value>],
) -> Result<Result<Vec<ModuleValue>, Fault>, Memory>
    ensures { IfOk result
        (IsAll (specs.modules_in path.now places.now keys.now (values answers.now))) }
{
    let mut all = Vec::new(alloc);
    for key in keys {
        match module_in(alloc, path, answer_of(key, places, answers))? {
            Ok(loaded) => all.push(loaded)?,
            Err(fault) => return Ok(Err(fault)),
        }
    }
    Ok(Ok(all))
}

/// Returns the modules of loads, in order, or the fault of the first faulty one.
pub fn all_modules(
    alloc: Global,
    path: &Text,
    group: &[Key],
    keys: &[Key],
    answers: &[Arc<Value>],
) -> Result<Result<Vec<ModuleValue>, Fault>, Memory>
    ensures { IfOk result
        (IsAll (specs.all_modules path.now group.now keys.now (values answers.now))) }
{
    let places = first_places(alloc, group)?;
    modules_in(alloc, path, &places, keys, answers)
}

// Makes a turn that ends with a fault.
fn faulty(code: u64, path: &Text, line: usize) -> Result<FileTurn, Memory>
    ensures { IfOk result (IsReply (specs.faulty code path.now line)) }
{
    Ok(FileTurn::Done(Value::Fault(fault_at(code, path, line)?)))
}

// Asks for the modules of a file's loads. If only some of their answers are there, the next turn begins from scratch.
fn ask_modules(group: Vec<Key>, parsed: FileLoads, answers: &[Arc<Value>]) -> FileTurn
    requires { specs.after_loads parsed.source (file_of (arc_value parsed.file))
        (Ok parsed.keys.items) (values answers.now) ≡ Ask group.items }
    ensures { IsMade (table_of (continuation.Loads parsed)) (values answers.now) result }
{
    if answers.is_empty() {
        return FileTurn::Wait(group, Continuation::Loads(parsed));
    }
    FileTurn::Ask(group)
}

/// Returns what comes after the keys of a file's loads are known. If none of their modules is there, the file's tree is
/// kept.
pub fn after_loads(
    alloc: Global,
    parsed: FileLoads,
    answers: &[Arc<Value>],
) -> Result<FileTurn, Memory>
    ensures { IfOk result (IsMade (table_of (continuation.Loads parsed)) (values answers.now)) }
{
    let group = distinct_keys(alloc, parsed.keys.as_slice())?;
    let count = group.as_slice().len();
    if answers.len() < count {
        return Ok(ask_modules(group, parsed, answers));
    }
    let FileLoads { source, file, keys } = parsed;
    match all_modules(
        alloc,
        &source.path,
        group.as_slice(),
        keys.as_slice(),
        answers,
    )? {
        Ok(loads) => evaluate_file(alloc, &source, file, loads, &answers[count..]),
        Err(fault) => Ok(FileTurn::Done(Value::Fault(fault))),
    }
}

// Returns what comes after the text of a file.
fn after_text(
    alloc: Global,
    source: Source,
    text: &Text,
    answers: &[Arc<Value>],
) -> Result<FileTurn, Memory>
    ensures { IfOk result (IsMade (specs.after_text source (Some text.now)) (values answers.now)) }
{
    let file = match read_tree(alloc, &source, text)? {
        Ok(file) => file,
        Err(fault) => return Ok(FileTurn::Done(Value::Fault(fault))),
    };
    match load_keys(alloc, &source, file.loads.as_slice())? {
        Ok(keys) => {
            let file = Arc::new(alloc, file)?;
            let parsed = FileLoads { source, file, keys };
            after_loads(alloc, parsed, answers)
        }
        Err(fault) => Ok(FileTurn::Done(Value::Fault(fault))),
    }
}

// Returns the text of a file that exists.
fn text_in(answer: &Value) -> Option<&Text>
    ensures { option_map (λ t. t.now) result ≡ specs.text_in answer.now }
{
    match answer {
        Value::File(Some(text)) => Some(text),
        _ => None,
    }
}

// Returns what a file asks for or ends with, from its text on.
fn by_file(alloc: Global, source: Source, answers: &[Arc<Value>]) -> Result<FileTurn, Memory>
    ensures { IfOk result (IsMade (specs.by_file source) (values answers.now)) }
{
    match answers.split_first() {
        None => {
            let file = Key::File(source.path.share()?);
            Ok(FileTurn::Ask(vec![in alloc; file]?))
        }
        Some((file, answers)) => match text_in(file) {
            None => Ok(FileTurn::Done(Value::Fault(fault_at(faults::NO_MODULE, &source.path, 0)?))),
            Some(text) => after_text(alloc, source, text, answers),
        },
    }
}

// Adds look-ups of directories.
fn add_lookups(keys: &mut Vec<Key>, names: &[Text]) -> Result<(), Memory>
    ensures { OnOk result (keys.new.items ≡ keys.old.items ++ map (λ name. key.Lookup name)
        names.now) }
{
    for name in names {
        keys.push(Key::Lookup(name.share()?))?;
    }
    Ok(())
}

// Returns the look-ups of the package of a label, and of the directories between it and the file.
fn lookups(alloc: Global, label: &Label) -> Result<Vec<Key>, Memory>
    ensures { IfOk result (λ v. v.items ≡ modules.lookups label.now) }
{
    let mut keys = Vec::new(alloc);
    keys.push(Key::Lookup(label.package_name().share()?))?;
    let names = label.boundaries(alloc)?;
    add_lookups(&mut keys, names.as_slice())?;
    distinct_keys(alloc, keys.as_slice())
}

// Returns whether some look-up found a BUILD file.
fn some_build(looks: &[Arc<Value>]) -> bool
    ensures { result ≡ list_any holds_build (values looks.now) }
{
    for look in looks {
        if has_build(look) {
            return true;
        }
    }
    false
}

// Returns whether the first look-up found a BUILD file.
fn is_in_package(looks: &[Arc<Value>]) -> bool
    ensures { result ≡ modules.is_in_package (values looks.now) }
{
    match looks.first() {
        Some(look) => has_build(look),
        None => false,
    }
}

// Returns whether a look-up after the first found a BUILD file.
fn is_crossed(looks: &[Arc<Value>]) -> bool
    ensures { result ≡ modules.is_crossed (values looks.now) }
{
    match looks.split_first() {
        Some((_, looks)) => some_build(looks),
        None => false,
    }
}

// Returns the .bzl file of a label.
fn source_of(label: &Label) -> Result<Source, Memory>
    ensures { IfOk result (λ s. s ≡ modules.source_of label.now) }
{
    Ok(Source {
        kind: FileKind::Bzl,
        label: label.text().share()?,
        path: label.file().share()?,
        package_name: label.package_name().share()?,
    })
}

// Returns what a module asks for or ends with after its look-ups.
fn after_lookups(
    alloc: Global,
    label: &Label,
    looks: &[Arc<Value>],
    answers: &[Arc<Value>],
) -> Result<FileTurn, Memory>
    ensures { IfOk result (IsMade (modules.after_lookups label.now (values looks.now))
        (values answers.now)) }
{
    if !is_in_package(looks) {
        return faulty(faults::NO_PACKAGE, label.package_name(), 0);
    }
    if is_crossed(looks) {
        return faulty(faults::BOUNDARY_CROSSED, label.file(), 0);
    }
    by_file(alloc, source_of(label)?, answers)
}

// Returns what the module of a label asks for or ends with.
fn by_lookups(alloc: Global, label: &Label, answers: &[Arc<Value>]) -> Result<FileTurn, Memory>
    ensures { IfOk result (IsMade (modules.by_lookups label.now) (values answers.now)) }
{
    let group = lookups(alloc, label)?;
    let count = group.as_slice().len();
    if answers.len() < count {
        return Ok(FileTurn::Ask(group));
    }
    after_lookups(alloc, label, &answers[..count], &answers[count..])
}

/// Returns what a module asks for or ends with.
pub fn of_module(alloc: Global, label: &Text, answers: &[Arc<Value>]) -> Result<FileTurn, Memory>
    ensures { IfOk result (IsMade (modules.next label.now) (values answers.now)) }
{
    match Label::read(alloc, label.as_str(), "") {
        Ok(label) => by_lookups(alloc, &label, answers),
        Err(BadLabel::Code15) => faulty(faults::BAD_LABEL, label, 0),
        Err(BadLabel::Memory(error)) => Err(error),
    }
}

// Returns the BUILD file that a look-up found.
fn build_in(answer: &Value) -> Option<BuildName>
    ensures { result ≡ packages.build_in answer.now }
{
    match answer {
        Value::Lookup(build) => *build,
        _ => None,
    }
}

// Returns the BUILD file of a package.
fn build_source(alloc: Global, name: &Text, build: BuildName) -> Result<Source, Memory>
    ensures { IfOk result (λ s. s ≡ packages.source_of name.now build) }
{
    let path = build_path(alloc, name, build)?;
    Ok(Source {
        kind: FileKind::Build,
        label: Text::new(alloc, "")?,
        path: Text::new(alloc, path.as_str())?,
        package_name: name.share()?,
    })
}

/// Returns what a package asks for or ends with.
pub fn of_package(alloc: Global, name: &Text, answers: &[Arc<Value>]) -> Result<FileTurn, Memory>
    ensures { IfOk result (IsMade (packages.next name.now) (values answers.now)) }
{
    match answers.split_first() {
        None => {
            let look = Key::Lookup(name.share()?);
            Ok(FileTurn::Ask(vec![in alloc; look]?))
        }
        Some((look, answers)) => match build_in(look) {
            None => Ok(FileTurn::Done(Value::Fault(fault_at(faults::NO_PACKAGE, name, 0)?))),
            Some(build) => by_file(alloc, build_source(alloc, name, build)?, answers),
        },
    }
}
