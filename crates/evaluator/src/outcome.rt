//! What the evaluation of a file ends with.
ghost use Rattle.std.specs.Prelude.{◌≡◌};
ghost use Rattle.evaluator.specs.Files.{Stands, HasTables};

use crate::machine::{Environment, Machine};
use crate::setting::Tables;
use base_types::Text;
use evaluator_frames::Control;
use evaluator_package_calls::answer_count;
use std::marker::Model;
use values_modules::{ModuleValue, Targets};

/// A fault: its code, and the file and line where it is shown.
#[derive(Drop)]
pub struct Fault {
    pub code: u64,
    pub path: Text,
    /// Counted from 1; 0 where no statement is shown.
    pub line: usize,
}

/// What the evaluation of a file ends with.
#[derive(Drop)]
pub enum Outcome {
    /// Of a .bzl file: what it leaves, frozen.
    Module(ModuleValue),
    /// Of a BUILD file: its targets, in byte order of their names.
    Package(Targets),
    /// A call of `glob` has patterns without an answer: these, in order and each once, and what goes on once they have one.
    Need(Vec<Text>, Suspended),
    /// The evaluation stopped.
    Fault(Fault),
}

/// An evaluation that waits for the answers of a call of `glob`. It may be given up at any time. A contract sees what the
/// file is given and the patterns; the evaluation stands where that of this file waits.
pub struct Suspended {
    // Boxed, so that an outcome is moved as a few words.
    pub(crate) parts: Box<Parts>,
    pub(crate) patterns: Vec<Text>,
}

/// What an evaluation that waits goes on from.
#[derive(Drop)]
pub(crate) struct Parts {
    pub(crate) environment: Environment,
    // What is made once for the file.
    pub(crate) tables: Tables,
    pub(crate) machine: Machine,
    pub(crate) control: Control,
}

impl Drop for Suspended {
    fn drop(self) {
        let Suspended {
            parts: _,
            patterns: _,
        } = self;
    }
}

impl Model for Suspended {
    ghost use Rattle.std.specs.Prelude.{ℕ, List, refl};
    ghost use Rattle.std.specs.Coded.{code_by, coded×, coded_ℕ, coded_list};
    ghost use Rattle.evaluator.specs.declared.machine.Environment.{Environment};
    ghost use Rattle.evaluator.specs.contracts.machine.Environment as e;
    ghost use Rattle.evaluator.specs.Files.{Waiting, Waits, HasTables};

    ghost Value = { Waiting };

    ghost coded = { code_by (Environment × List (List ℕ)) (coded× e.the_row.coded (coded_list (coded_list coded_ℕ))) (λ w. (w.environment, w.patterns)) (λ p. record { environment = p.0; patterns = p.1 }) (λ _. refl) };

    ghost view = { λ s. record { environment = s.parts.value.environment; patterns = s.patterns.items } };

    ghost invariant = { λ s. let p = s.parts.value in Waits p.environment p.machine p.control s.patterns.items × HasTables p.environment p.tables };
}

// How many bytes of values an evaluation may have that is kept while it waits.
const MOST_KEPT: u64 = 4_194_304;

// With at most so many answers an evaluation of more bytes is always given up.
const FEW_ANSWERS: usize = 16;

// Returns the same value, of a type that may go to another thread.
fn crossing<T: Send>(value: T) -> T
    ensures { result ≡ value }
{
    value
}

impl Suspended {
    // Returns what the evaluation goes on from, and its patterns.
    pub(crate) fn into_parts(self) -> (Parts, Vec<Text>)
        ensures environment { result.0.environment ≡ self.environment }
        ensures patterns { result.1.items ≡ self.patterns }
        ensures stands { Stands result.0.environment result.0.machine result.0.control }
        ensures tables { HasTables result.0.environment result.0.tables }
    {
        let Suspended { parts, patterns } = self;
        (Box::into_inner(parts), patterns)
    }

    /// Returns the same evaluation, which may go on in another thread.
    pub fn for_another_thread(self) -> Suspended
        ensures { result ≡ self }
    {
        crossing(self)
    }

    /// Returns whether it is better given up and begun again than kept, since its values take many bytes. With many answers
    /// that is so only at powers of two, so that an evaluation of many globs is begun again a few times and not at each of
    /// them. No outcome hangs on that, so no contract says anything of it.
    pub fn is_large(&self) -> bool {
        if self.parts.machine.state.heap.allocated_bytes() <= MOST_KEPT {
            return false;
        }
        let answers = answer_count(&self.parts.environment.package.answers);
        answers <= FEW_ANSWERS || answers.is_power_of_two()
    }

    /// Returns the patterns that have no answer, in order.
    pub fn patterns(&self) -> &[Text]
        ensures { result.now ≡ self.now.patterns }
    {
        self.patterns.as_slice()
    }
}
