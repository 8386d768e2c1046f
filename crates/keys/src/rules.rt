//! The trait of node functions.
ghost use Rattle.std.specs.Prelude.{◌≡◌, ◌+◌, ℕ, List, IfOk};
ghost use Rattle.std.specs.List.{AllByRecursion};
ghost use Rattle.engine_semantics.specs.Reply.{Reply, Ask, Done};
ghost use Rattle.engine_semantics.specs.Value.{AllDiffer};
ghost use Rattle.keys.specs.declared.key.Key.{Key};
ghost use Rattle.keys.specs.declared.value.Value.{Value};
ghost use Rattle.keys.specs.Turns.{values, IsTurn, NoCycle};

use crate::key::Key;
use crate::value::Value;
use base_types::Memory;
use std::sync::Arc;

/// What a turn ends with.
#[derive(Drop)]
pub enum Turn<S: Drop> {
    /// A group of keys to be asked for, and the state from which the next turn continues.
    Ask(S, Vec<Key>),
    /// The node's value.
    Done(Value),
}

/// Node functions. What a turn asks for or ends with is one function, `next`, of the key and the answers so far. It is
/// one for the whole type: it depends neither on which value of the type makes the turn, nor on which state is kept.
pub trait Rules {
    /// What is kept between two turns of a node. It may be dropped at any time.
    type State: Drop + Send;

    /// What a turn of the key asks for or ends with, from all answers so far in the order in which they were asked for.
    ghost next: { Key → List Value → Reply Key Value };

    /// How many turns were made, with those that failed.
    ghost turns: { Self → ℕ };

    /// The state may be used for the key with these answers.
    ghost fits: { Self.State → Key → List Value → Type 0 };

    /// Makes a state with nothing kept, from which a turn can be made with any answers. Returns `Memory` if an
    /// allocation fails.
    fn begin(&self, key: &Key) -> Result<Self::State, Memory>
        ensures { IfOk result (λ state. (answers : List Value) → fits state key.now answers) };

    /// Makes one turn, from all answers so far, in the order in which they were asked for. Returns `Memory` if an
    /// allocation fails; that turn counts too.
    fn turn(
        &mut self,
        state: Self::State,
        answers: &[Arc<Value>],
    ) -> Result<Turn<Self::State>, Memory>
        requires { (key : Key) × fits state key (values answers.now) }
        ensures is_next { IfOk result (λ t. (key : Key) → fits state key (values answers.now)
            → IsTurn fits next key (values answers.now) t) }
        ensures counted { turns self.new ≡ turns self.old + 1 };

    /// No group has a key twice.
    ghost groups_differ: { (key : Key) (answers : List Value) (group : List Key) → next key answers ≡ Ask group → AllDiffer group };

    /// No turn ends with a cycle if no answer is one.
    ghost ends_plain: { (key : Key) (answers : List Value) (v : Value) → AllByRecursion NoCycle answers → next key answers ≡ Done v → NoCycle v };
}
