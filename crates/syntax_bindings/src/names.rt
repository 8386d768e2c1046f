//! The names of functions, comprehensions and files.
ghost use Rattle.std.specs.Prelude.{◌≡◌, ◌≤◌, ◌++◌, [], length, true, IfOk, OnOk, map};
ghost use Rattle.syntax_tree.specs.View.{clause_trees};
ghost use Rattle.syntax_tree.specs.Statements.{stmts_of, param_of, top_of, file_of};
ghost use Rattle.syntax_tree.specs.Bindings.{names_once, differ};
ghost use Rattle.syntax_tree.specs.Bindings as bound;
ghost use Rattle.syntax_bindings.specs.NameSets.{names_of, SameNames, names_of_params};
ghost use Rattle.syntax_bindings.specs.declared.finding.TheConstants.{MAX_LINEAR};

use crate::finding::{MAX_LINEAR, NameSet, empty, insert_unlisted, is_among};
use crate::gathering::{find_clauses, find_loads, find_suite, find_tops};
use base_types::{Memory, Text};
use std::alloc::Global;
use syntax_tree::{Clause, File, Param, Stmt, Top};

// Returns the names of parameters, in their order.
fn names_of(alloc: Global, params: &[Param]) -> Result<Vec<Text>, Memory>
    ensures { IfOk result (λ names. names.items ≡ names_of_params params.now) }
{
    let mut names = Vec::new(alloc);
    for param in params.iter() {
        names.push(param.name.share()?)?;
    }
    Ok(names)
}

// Notes the names of these parameters as found, without keeping them.
fn note_params(found: &mut NameSet, params: &[Param]) -> Result<(), Memory>
    ensures names { OnOk result
        (SameNames (names_of found.new) (names_of_params params.now ++ names_of found.old)) }
    ensures kept { found.new.kept ≡ found.old.kept }
{
    for param in params.iter() {
        insert_unlisted(found, &param.name)?;
    }
    Ok(())
}

/// Returns the names of a call of a function, from its parameters and its body. They are the names of the parameters,
/// followed by those that the body binds besides. Each occurs once, in the order in which they are bound first.
///
/// # Errors
///
/// Returns `Memory` if an allocation fails.
pub fn function_names(alloc: Global, params: &[Param], body: &[Stmt]) -> Result<Vec<Text>, Memory>
    ensures { IfOk result (λ names. names.items
        ≡ bound.function_names (map param_of params.now) (stmts_of body.now)) }
{
    let mut found = empty(alloc, names_of(alloc, params)?);
    note_params(&mut found, params)?;
    find_suite(&mut found, body)?;
    Ok(found.into_names())
}

/// Returns the names of a comprehension, each once: those that its `for` clauses bind.
///
/// # Errors
///
/// Returns `Memory` if an allocation fails.
pub fn clause_names(alloc: Global, clauses: &[Clause]) -> Result<Vec<Text>, Memory>
    ensures { IfOk result
        (λ names. names.items ≡ names_once [] (bound.clause_names (clause_trees clauses.now))) }
{
    let mut found = empty(alloc, Vec::new(alloc));
    find_clauses(&mut found, clauses)?;
    Ok(found.into_names())
}

/// Returns the names of a file, each once: those that its loads bind, and those that its statements bind.
///
/// # Errors
///
/// Returns `Memory` if an allocation fails.
pub fn file_names(alloc: Global, file: &File) -> Result<Vec<Text>, Memory>
    ensures { let f = file_of file.now in
        IfOk result
        (λ names. names.items ≡ names_once []
        (bound.load_names f.loads ++ bound.top_names f.tops)) }
{
    let mut found = empty(alloc, Vec::new(alloc));
    find_loads(&mut found, file.loads.as_slice())?;
    find_tops(&mut found, file.tops.as_slice())?;
    Ok(found.into_names())
}

/// Returns the names that a file's own statements bind, each once, in the order in which they are bound first.
///
/// # Errors
///
/// Returns `Memory` if an allocation fails.
pub fn top_names(alloc: Global, tops: &[Top]) -> Result<Vec<Text>, Memory>
    ensures { IfOk result
        (λ names. names.items ≡ names_once [] (bound.top_names (map top_of tops.now))) }
{
    let mut found = empty(alloc, Vec::new(alloc));
    find_tops(&mut found, tops)?;
    Ok(found.into_names())
}

/// Returns whether these names are known to differ. More than `MAX_LINEAR` are not compared.
pub fn are_known_to_differ(names: &[Text]) -> bool
    ensures some { result ≡ true → differ names.now ≡ true }
    ensures few { length names.now ≤ MAX_LINEAR → result ≡ differ names.now }
{
    if names.len() > MAX_LINEAR {
        return false;
    }
    for i in 0..names.len() {
        if is_among(&names[i + 1..], &names[i]) {
            return false;
        }
    }
    true
}
