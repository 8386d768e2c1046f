//! Functions with the names of a call.
ghost use Rattle.std.specs.Prelude.{◌≡◌, ◌≤◌, length, IfOk, map};
ghost use Rattle.syntax_tree.specs.Bindings.{differ};
ghost use Rattle.syntax_tree.specs.Statements.{stmts_of, param_of, fn_of};
ghost use Rattle.syntax_bindings.specs.Functions.{function};
ghost use Rattle.syntax_bindings.specs.declared.finding.TheConstants.{MAX_LINEAR};

use crate::names::{are_known_to_differ, function_names};
use crate::parameters::{index_of, required};
use base_types::{Memory, Text};
use std::alloc::Global;
use std::sync::Arc;
use syntax_tree::{Def, Param, Stmt};

/// Makes a function of its line, its name, its parameters and its body, and finds the names of a call. Checks whether
/// they differ if they are sixteen or fewer.
///
/// # Errors
///
/// Returns `Memory` if an allocation fails.
pub fn new_function(
    alloc: Global,
    line: usize,
    name: Text,
    params: Vec<Param>,
    body: Vec<Stmt>,
) -> Result<Def, Memory>
    ensures function { IfOk result
        (λ d. fn_of d ≡ function line name (map param_of params.items) (stmts_of body.items)) }
    ensures once { IfOk result
        (λ d. length d.names.items ≤ MAX_LINEAR → d.once ≡ differ d.names.items) }
{
    let names = function_names(alloc, params.as_slice(), body.as_slice())?;
    let once = are_known_to_differ(names.as_slice());
    let index = index_of(alloc, names.as_slice())?;
    let required = required(params.as_slice());
    let body = Arc::new(alloc, body)?;
    Ok(Def {
        line,
        name,
        params,
        body,
        names,
        once,
        index,
        required,
    })
}
