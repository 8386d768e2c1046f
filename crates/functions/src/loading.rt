//! The node functions, as restartable states.
ghost use Rattle.std.specs.Prelude.{◌≡◌, List, IfOk};
ghost use Rattle.keys.specs.declared.key.Key.{Key};
ghost use Rattle.keys.specs.declared.value.Value.{Value};
ghost use Rattle.keys.specs.Turns.{values};
ghost use Rattle.functions.specs.Goes.{IsMade, Table, MayGoOn, table_of};
ghost use Rattle.functions.specs.NodeStates.{HoldsFrom};
ghost use Rattle.functions.specs.Next as table;
ghost use Rattle.functions_directories.specs.Replies.{IsReply as IsWalked};

use crate::evaluating::resume_with;
use crate::file_node::{after_loads, of_module, of_package};
use crate::reply::{Continuation, FileTurn};
use base_ghost::Count;
use base_types::Memory;
use functions_directories::{Search, glob, lookup, package_names};
use keys::{Key, Rules, Turn, Value};
use std::alloc::Global;
use std::sync::Arc;

/// Rules whose turns are the table of this crate, `specs/Next`.
pub trait LoadRules: Rules {
    /// What a turn asks for or ends with is what the table says.
    ghost is_table: { (key : Key) (answers : List Value) → Self.next key answers ≡ table.next key answers };
}

// A file with its tree, or an evaluation, that waits, and how many answers are before those that it waits for.
#[derive(Drop)]
pub struct ResumePoint {
    taken: usize,
    continuation: Continuation,
}

/// What is kept of a node between two turns: its key and, if a file waits for its loads or a package for globs, the
/// file's tree or the evaluation.
#[derive(Drop)]
pub struct NodeState {
    key: Key,
    // Boxed, so that the states of the many nodes without a resume point are moved as a few words.
    resume_point: Option<Box<ResumePoint>>,
}

// Returns the turn of a node whose node function is by directories, for which nothing waits.
fn without_state(reply: functions_directories::DirectoryTurn) -> FileTurn
    ensures { (next : Table) (answers : List Value) → IsWalked (next answers) reply
        → IsMade next answers result }
{
    match reply {
        functions_directories::DirectoryTurn::Ask(group) => FileTurn::Ask(group),
        functions_directories::DirectoryTurn::Done(value) => FileTurn::Done(value),
    }
}

// Makes a turn of a node of which nothing is kept.
fn from_start(alloc: Global, key: &Key, answers: &[Arc<Value>]) -> Result<FileTurn, Memory>
    ensures { IfOk result (IsMade (table.next key.now) (values answers.now)) }
{
    match key {
        Key::File(_) => Ok(FileTurn::Done(Value::File(None))),
        Key::Listing(_) => Ok(FileTurn::Done(Value::Listing(None))),
        Key::Lookup(directory) => Ok(without_state(lookup(alloc, directory, answers)?)),
        Key::Glob(directory, pattern, directories) => {
            let search = Search {
                directory: directory.as_str(),
                directories: *directories,
                pattern: pattern.as_str(),
            };
            Ok(without_state(glob(alloc, search, answers)?))
        }
        Key::Module(label) => of_module(alloc, label, answers),
        Key::Package(name) => of_package(alloc, name, answers),
        Key::Under(directory) => Ok(without_state(package_names(alloc, directory, answers)?)),
    }
}

// Makes a turn of a node, from the resume point.
fn resume_node(
    alloc: Global,
    continuation: Continuation,
    answers: &[Arc<Value>],
) -> Result<FileTurn, Memory>
    requires { MayGoOn continuation }
    ensures { IfOk result (IsMade (table_of continuation) (values answers.now)) }
{
    match continuation {
        Continuation::Loads(parsed) => after_loads(alloc, parsed, answers),
        Continuation::Globs(paused) => resume_with(alloc, paused, answers),
    }
}

// Makes a turn of a node, from its kept state.
fn reply_of(
    alloc: Global,
    key: &Key,
    held: Option<Box<ResumePoint>>,
    answers: &[Arc<Value>],
) -> Result<FileTurn, Memory>
    requires { HoldsFrom held key.now (values answers.now) }
    ensures { IfOk result (IsMade (table.next key.now) (values answers.now)) }
{
    match held {
        None => from_start(alloc, key, answers),
        Some(held) => {
            let ResumePoint {
                taken,
                continuation,
            } = Box::into_inner(held);
            resume_node(alloc, continuation, &answers[taken..])
        }
    }
}

/// The node functions of the loader.
#[derive(Drop)]
pub struct Loading {
    alloc: Global,
    made: Count,
}

impl Loading {
    /// Makes the node functions, with no turn made. They grow by the allocator that they are made with.
    pub fn new(alloc: Global) -> Loading
        ensures { result.made ≡ 0 }
    {
        Loading {
            alloc,
            made: Count::new(),
        }
    }
}

impl Rules for Loading {
    type State = NodeState;

    ghost use Rattle.functions.specs.Next.{next};
    ghost use Rattle.functions.specs.NodeStates.{fits};
    ghost use Rattle.functions.specs.NextLaws.{groups_differ, ends_plain};

    ghost next = { next };

    ghost turns = { λ l. l.made };

    ghost fits = { fits };

    ghost groups_differ = { groups_differ };

    ghost ends_plain = { ends_plain };

    fn begin(&self, key: &Key) -> Result<NodeState, Memory> {
        Ok(NodeState {
            key: key.share()?,
            resume_point: None,
        })
    }

    fn turn(
        &mut self,
        state: NodeState,
        answers: &[Arc<Value>],
    ) -> Result<Turn<NodeState>, Memory> {
        self.made.add_one();
        let NodeState {
            key,
            resume_point: held,
        } = state;
        match reply_of(self.alloc, &key, held, answers)? {
            FileTurn::Ask(group) => Ok(Turn::Ask(
                NodeState {
                    key,
                    resume_point: None,
                },
                group,
            )),
            FileTurn::Wait(group, continuation) => {
                let taken = answers.len();
                let held = ResumePoint {
                    taken,
                    continuation,
                };
                let held = Some(Box::new(self.alloc, held)?);
                Ok(Turn::Ask(
                    NodeState {
                        key,
                        resume_point: held,
                    },
                    group,
                ))
            }
            FileTurn::Done(value) => Ok(Turn::Done(value)),
        }
    }
}

impl LoadRules for Loading {
    ghost use Rattle.std.specs.Prelude.{refl};

    ghost is_table = { λ key answers. refl };
}
