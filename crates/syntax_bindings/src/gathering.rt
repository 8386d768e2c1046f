//! The names that pieces of a file bind.
ghost use Rattle.std.specs.Prelude.{List, OnOk, map};
ghost use Rattle.syntax_tree.specs.Bindings.{target_names, targets_names, clause_names, stmt_names, suite_names, branches_names, branch_names, top_names, item_names, load_names};
ghost use Rattle.syntax_tree.specs.View.{tree_of, trees_of, clause_trees};
ghost use Rattle.syntax_tree.specs.Statements.{stmt_of, stmts_of, branch_of, branch_trees, top_of, item_of, load_of};
ghost use Rattle.syntax_bindings.specs.NameSets.{Finds};

use crate::finding::{NameSet, find};
use base_types::Memory;
use syntax_tree::{Branch, Clause, Expr, LoadItem, LoadStmt, Stmt, Top};

/// Finds the names that an assignment to a target binds.
#[cycle(targets)]
pub fn find_target(found: &mut NameSet, target: &Expr) -> Result<(), Memory>
    ensures { OnOk result (Finds found.old (target_names (tree_of target.now)) found.new) }
{
    match target {
        Expr::Name(x, _) => find(found, x)?,
        Expr::Tuple(es) => find_targets(found, es.as_slice())?,
        Expr::List(es) => find_targets(found, es.as_slice())?,
        _ => {}
    }
    Ok(())
}

// Finds the names that an assignment to several targets binds.
#[cycle(targets)]
fn find_targets(found: &mut NameSet, targets: &[Expr]) -> Result<(), Memory>
    ensures { OnOk result (Finds found.old (targets_names (trees_of targets.now)) found.new) }
{
    for target in targets.iter() {
        find_target(found, target)?;
    }
    Ok(())
}

/// Finds the names of a comprehension.
pub fn find_clauses(found: &mut NameSet, clauses: &[Clause]) -> Result<(), Memory>
    ensures { OnOk result (Finds found.old (clause_names (clause_trees clauses.now)) found.new) }
{
    for clause in clauses.iter() {
        if let Clause::For(target, _) = clause {
            find_target(found, target)?;
        }
    }
    Ok(())
}

// Finds the names that a statement binds.
#[cycle(statements)]
fn find_stmt(found: &mut NameSet, stmt: &Stmt) -> Result<(), Memory>
    ensures { OnOk result (Finds found.old (stmt_names (stmt_of stmt.now)) found.new) }
{
    match stmt {
        Stmt::Assign { target, .. } => find_target(found, target)?,
        Stmt::Augment { target, .. } => find_target(found, target)?,
        Stmt::If {
            body,
            branches,
            other,
            ..
        } => {
            find_suite(found, body.as_slice())?;
            find_branches(found, branches.as_slice())?;
            find_suite(found, other.as_slice())?;
        }
        Stmt::For { target, body, .. } => {
            find_target(found, target)?;
            find_suite(found, body.as_slice())?;
        }
        _ => {}
    }
    Ok(())
}

/// Finds the names that statements bind.
#[cycle(statements)]
pub fn find_suite(found: &mut NameSet, suite: &[Stmt]) -> Result<(), Memory>
    ensures { OnOk result (Finds found.old (suite_names (stmts_of suite.now)) found.new) }
{
    for stmt in suite.iter() {
        find_stmt(found, stmt)?;
    }
    Ok(())
}

// Finds the names that branches bind.
#[cycle(statements)]
fn find_branches(found: &mut NameSet, branches: &[Branch]) -> Result<(), Memory>
    ensures { OnOk result (Finds found.old (branches_names (branch_trees branches.now)) found.new) }
{
    for branch in branches.iter() {
        find_branch(found, branch)?;
    }
    Ok(())
}

// Finds the names that a branch binds.
#[cycle(statements)]
fn find_branch(found: &mut NameSet, branch: &Branch) -> Result<(), Memory>
    ensures { OnOk result (Finds found.old (branch_names (branch_of branch.now)) found.new) }
{
    find_suite(found, branch.body.as_slice())
}

/// Finds the names that a file's own statements bind at file level.
pub fn find_tops(found: &mut NameSet, tops: &[Top]) -> Result<(), Memory>
    ensures { OnOk result (Finds found.old (top_names (map top_of tops.now)) found.new) }
{
    for top in tops.iter() {
        match top {
            Top::Stmt(stmt) => find_stmt(found, stmt)?,
            Top::Def(def) => find(found, &def.name)?,
        }
    }
    Ok(())
}

// Finds the names that a load binds.
fn find_items(found: &mut NameSet, items: &[LoadItem]) -> Result<(), Memory>
    ensures { OnOk result (Finds found.old (item_names (map item_of items.now)) found.new) }
{
    for item in items.iter() {
        find(found, &item.local)?;
    }
    Ok(())
}

/// Finds the names that loads bind.
pub fn find_loads(found: &mut NameSet, loads: &[LoadStmt]) -> Result<(), Memory>
    ensures { OnOk result (Finds found.old (load_names (map load_of loads.now)) found.new) }
{
    for load in loads.iter() {
        find_items(found, load.items.as_slice())?;
    }
    Ok(())
}
