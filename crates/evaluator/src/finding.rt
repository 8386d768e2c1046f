//! Where the function of an object stands.
ghost use Rattle.std.specs.Prelude.{map, IfOk, IsOkUnless, Option, Some, None, option_map};
ghost use Rattle.values_objects.specs.declared.halt.Halt.TheVariants.{Memory};
ghost use Rattle.syntax_tree.specs.Statements.{top_of};
ghost use Rattle.std.specs.Arc.{arc_value};
ghost use Rattle.evaluator_semantics.specs.Environment.{defs, function_named};
ghost use Rattle.evaluator.specs.Machines.{env_of};
ghost use Rattle.evaluator.specs.Finding.{IsDef, IsFound};
ghost use Rattle.base_types.specs.Refusals.{memory};

use crate::setting::Setting;
use base_types::Text;
use std::alloc::Global;
use std::sync::Arc;
use syntax_tree::Def;
use values_heap::{Bytes, Halt};
use values_modules::Module;

/// A function that was found, and the path of its file.
#[derive(Drop)]
pub struct Callee {
    pub path: Text,
    pub def: Arc<Def, Global>,
}

// Returns the function with a name in the file that is evaluated.
fn own_function<'a>(e: &'a Setting<'_>, name: &Bytes) -> Option<&'a Arc<Def, Global>>
    ensures { IsDef name.now
        (function_named name.now (defs (map top_of (arc_value e.now.file).tops.items)))
        (option_map (λ d. d.now) result) }
{
    match e.function(name) {
        Some(function) => Some(function.def()),
        None => None,
    }
}

// Returns the function with a name in a module.
fn function_in<'a>(m: &'a Module, name: &Bytes) -> Option<&'a Arc<Def, Global>>
    ensures { IsDef name.now (function_named name.now m.now.functions)
        (option_map (λ d. d.now) result) }
{
    match m.function(name) {
        Some(function) => Some(function.def()),
        None => None,
    }
}

/// Returns the function with a name in the file with a label, if there is one.
pub fn find(e: &Setting<'_>, label: &Text, name: &Bytes) -> Result<Option<Callee>, Halt>
    ensures ok { IfOk result (IsFound (env_of e.now) label.now name.now) }
    ensures err { IsOkUnless result (Memory memory) }
{
    let given = e.given();
    let (path, def) = if *label == given.label {
        (&given.path, own_function(e, name))
    } else {
        match e.module(label) {
            Some(m) => (m.path(), function_in(m, name)),
            None => return Ok(None),
        }
    };
    match def {
        Some(def) => Ok(Some(Callee {
            path: path.share()?,
            def: Arc::try_clone(def)?,
        })),
        None => Ok(None),
    }
}
