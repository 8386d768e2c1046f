//! A turn that was made.
ghost use Rattle.std.specs.Prelude.{◌≡◌, ◌↔◌, IsOk, IfOk};
ghost use Rattle.std.specs.Bool.{Decides};
ghost use Rattle.keys.specs.Steps.{IsStep};
ghost use Rattle.keys.specs.Turns.{values};
ghost use Rattle.keys.specs.Jobs.{Made};
ghost use Rattle.keys.specs.Answers.{ending_of, IsAnswer};

use crate::key::Key;
use crate::paused_node::PausedNode;
use crate::rules::{Rules, Turn};
use crate::value::Value;
use base_types::Memory;
use std::marker::Model;
use std::sync::Arc;

// The result of a turn.
#[derive(Drop)]
pub(crate) enum TurnResult<S: Drop> {
    // It was made.
    Made(Turn<S>),
    // An allocation failed in the turn.
    Refused(Memory),
    // The turn was not begun, since the allocation of a state failed.
    NotBegun(Memory),
}

/// A turn that was made, or that failed because an allocation failed. A contract sees its job and how it ended.
#[derive(Drop)]
pub struct Turned<R: Rules> {
    key: Key,
    answers: Vec<Arc<Value>>,
    answer: TurnResult<R::State>,
}

impl<R: Rules> Model for Turned<R> {
    ghost use Rattle.keys.specs.Jobs.{JobView, Outcome};
    ghost use Rattle.keys.specs.Turns.{values};

    ghost Value = { Outcome };

    ghost use Rattle.std.specs.Coded.{codes};
    ghost use Rattle.keys.specs.Storage.{loaded_code};

    ghost coded = { Prim.hlevel (codes, loaded_code) };

    ghost use Rattle.keys.specs.Answers.{ending_of, IsAnswer};

    ghost view = { λ t. record { asked = record { key = t.key; answers = values t.answers.items }; ending = ending_of t.answer } };

    ghost invariant = { λ t. IsAnswer R.fits R.next t.key (values t.answers.items) t.answer };
}

/// What a turn leads to.
#[derive(Drop)]
pub enum TurnEnd<R: Rules> {
    /// The node waits for a group.
    Paused(PausedNode<R>, Vec<Key>),
    /// The node's key and its value.
    Done(Key, Value),
}

impl<R: Rules> Turned<R> {
    // Makes the record of a turn of this key from these answers, with its result.
    pub(crate) fn new(key: Key, answers: Vec<Arc<Value>>, answer: TurnResult<R::State>) -> Turned<R>
        requires { IsAnswer R.fits R.next key (values answers.items) answer }
        ensures key { result.asked.key ≡ key }
        ensures answers { result.asked.answers ≡ values answers.items }
        ensures ending { result.ending ≡ ending_of answer }
    {
        Turned {
            key,
            answers,
            answer,
        }
    }

    /// Returns whose turn it was.
    pub fn key(&self) -> &Key
        ensures { result.now ≡ self.now.asked.key }
    {
        &self.key
    }

    /// Returns the answers that the turn was made from, in the order in which they were asked for.
    pub fn answers(&self) -> &[Arc<Value>]
        ensures { values result.now ≡ self.now.asked.answers }
    {
        self.answers.as_slice()
    }

    /// Returns whether the turn was made, and no allocation failed.
    pub fn is_made(&self) -> bool
        ensures { Decides result (self.now.ending ≡ Made) }
    {
        match self.answer {
            TurnResult::Made(_) => true,
            TurnResult::Refused(_) => false,
            TurnResult::NotBegun(_) => false,
        }
    }

    /// Returns the turn if it was made, and otherwise why it was not.
    pub fn made(self) -> Result<Turned<R>, Memory>
        ensures same { IfOk result (λ turned. turned ≡ self) }
        ensures made { IsOk result ↔ (self.ending ≡ Made) }
    {
        let Turned {
            key,
            answers,
            answer,
        } = self;
        match answer {
            TurnResult::Made(turn) => Ok(Turned {
                key,
                answers,
                answer: TurnResult::Made(turn),
            }),
            TurnResult::Refused(error) => Err(error),
            TurnResult::NotBegun(error) => Err(error),
        }
    }

    /// Returns what the turn leads to, or `Memory` if it was not made.
    pub fn into_end(self) -> Result<TurnEnd<R>, Memory>
        ensures made { IsOk result ↔ (self.ending ≡ Made) }
        ensures step { IfOk result (IsStep R.next self.asked) }
    {
        let Turned {
            key,
            answers,
            answer,
        } = self;
        match answer {
            TurnResult::Made(Turn::Ask(state, group)) => {
                Ok(TurnEnd::Paused(PausedNode::new(key, state, answers), group))
            }
            TurnResult::Made(Turn::Done(value)) => Ok(TurnEnd::Done(key, value)),
            TurnResult::Refused(error) => Err(error),
            TurnResult::NotBegun(error) => Err(error),
        }
    }
}
