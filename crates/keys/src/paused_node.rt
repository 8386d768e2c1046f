//! The state of a node that waits for a group.
ghost use Rattle.std.specs.Prelude.{◌≡◌, ◌++◌, OnOk, OnErr};
ghost use Rattle.keys.specs.Turns.{values, FitsFrom};

use crate::job::Job;
use crate::key::Key;
use crate::rules::Rules;
use crate::value::Value;
use base_types::Memory;
use std::marker::Model;
use std::sync::Arc;

/// A node that waits for a group, with its state. A contract sees its key and the answers before that group.
#[derive(Drop)]
pub struct PausedNode<R: Rules> {
    key: Key,
    state: R::State,
    answers: Vec<Arc<Value>>,
}

impl<R: Rules> Model for PausedNode<R> {
    ghost use Rattle.keys.specs.Jobs.{Waits};
    ghost use Rattle.keys.specs.Turns.{values, FitsFrom};

    ghost Value = { Waits };

    ghost use Rattle.std.specs.Coded.{codes};
    ghost use Rattle.keys.specs.Storage.{loaded_code};

    ghost coded = { Prim.hlevel (codes, loaded_code) };

    ghost view = { λ w. record { key = w.key; answers = values w.answers.items } };

    ghost invariant = { λ w. FitsFrom R.fits w.state w.key (values w.answers.items) };
}

impl<R: Rules> PausedNode<R> {
    // Makes a node that waits, with a state that fits the key and what comes after these answers.
    pub(crate) fn new(key: Key, state: R::State, answers: Vec<Arc<Value>>) -> PausedNode<R>
        requires { FitsFrom R.fits state key (values answers.items) }
        ensures key { result.key ≡ key }
        ensures answers { result.answers ≡ values answers.items }
    {
        PausedNode {
            key,
            state,
            answers,
        }
    }

    /// Returns the key of the node.
    pub fn key(&self) -> &Key
        ensures { result.now ≡ self.now.key }
    {
        &self.key
    }

    /// Adds the answers to the group after those that it has. Returns `Memory` if an allocation fails; the node then
    /// waits as before.
    pub fn answer(&mut self, mut found: Vec<Arc<Value>>) -> Result<(), Memory>
        ensures answered { OnOk result
            (self.new ≡ record self.old { answers = self.old.answers ++ values found.items }) }
        ensures refused { OnErr result (self.new ≡ self.old) }
    {
        self.answers.append(&mut found)?;
        Ok(())
    }

    /// Returns the next job, with the answers that it has.
    pub fn into_job(self) -> Job<R>
        ensures key { result.key ≡ self.key }
        ensures answers { result.answers ≡ self.answers }
    {
        let PausedNode {
            key,
            state,
            answers,
        } = self;
        Job::from_state(key, state, answers)
    }
}
