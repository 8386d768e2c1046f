//! A turn to be made.
ghost use Rattle.std.specs.Prelude.{◌≡◌, ◌+◌};
ghost use Rattle.keys.specs.Turns.{values};
ghost use Rattle.keys.specs.Jobs.{turns_made};

use crate::key::Key;
use crate::rules::Rules;
use crate::turned::{TurnResult, Turned};
use crate::value::Value;
use std::marker::Model;
use std::sync::Arc;

/// A turn to be made, with a kept state or none. A contract sees its key and all answers so far.
#[derive(Drop)]
pub struct Job<R: Rules> {
    key: Key,
    state: Option<R::State>,
    answers: Vec<Arc<Value>>,
}

impl<R: Rules> Model for Job<R> {
    ghost use Rattle.std.specs.Prelude.{IfSome};
    ghost use Rattle.keys.specs.Jobs.{JobView};
    ghost use Rattle.keys.specs.Turns.{values};

    ghost Value = { JobView };

    ghost use Rattle.std.specs.Coded.{codes};
    ghost use Rattle.keys.specs.Storage.{loaded_code};

    ghost coded = { Prim.hlevel (codes, loaded_code) };

    ghost view = { λ j. record { key = j.key; answers = values j.answers.items } };

    ghost invariant = { λ j. IfSome j.state (λ s. R.fits s j.key (values j.answers.items)) };
}

impl<R: Rules> Job<R> {
    /// Returns the job of the next turn of a key from these answers, with no kept state.
    pub fn new(key: Key, answers: Vec<Arc<Value>>) -> Job<R>
        ensures key { result.key ≡ key }
        ensures answers { result.answers ≡ values answers.items }
    {
        Job {
            key,
            state: None,
            answers,
        }
    }

    /// Returns the job of the next turn from a kept state, which fits the key and the answers.
    pub(crate) fn from_state(key: Key, state: R::State, answers: Vec<Arc<Value>>) -> Job<R>
        requires { R.fits state key (values answers.items) }
        ensures key { result.key ≡ key }
        ensures answers { result.answers ≡ values answers.items }
    {
        Job {
            key,
            state: Some(state),
            answers,
        }
    }

    /// Returns whose turn it is.
    pub fn key(&self) -> &Key
        ensures { result.now ≡ self.now.key }
    {
        &self.key
    }

    /// Returns all answers so far, in the order in which they were asked for.
    pub fn answers(&self) -> &[Arc<Value>]
        ensures { values result.now ≡ self.now.answers }
    {
        self.answers.as_slice()
    }

    /// Makes the turn, or keeps the error if an allocation fails. The rules' count of turns grows by one. It does not
    /// grow if there was no kept state and the allocation of a new one failed.
    pub fn make(self, rules: &mut R) -> Turned<R>
        ensures same { result.asked ≡ self }
        ensures counted { R.turns rules.new ≡ R.turns rules.old + turns_made result.ending }
    {
        let Job {
            key,
            state,
            answers,
        } = self;
        let state = match state {
            Some(state) => state,
            None => match rules.begin(&key) {
                Ok(state) => state,
                Err(error) => return Turned::new(key, answers, TurnResult::NotBegun(error)),
            },
        };
        match rules.turn(state, answers.as_slice()) {
            Ok(turn) => Turned::new(key, answers, TurnResult::Made(turn)),
            Err(error) => Turned::new(key, answers, TurnResult::Refused(error)),
        }
    }
}
