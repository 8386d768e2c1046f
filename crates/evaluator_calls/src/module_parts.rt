//! The names and functions of a file that its module has.
ghost use Rattle.std.specs.Prelude.{◌≡◌, ◌++◌, IfOk, OnOk, map};
ghost use Rattle.evaluator_semantics.specs.Files.{frozen_items, frozen_loads};
ghost use Rattle.evaluator_semantics.specs.Environment.{defs};
ghost use Rattle.syntax_tree.specs.Statements.{top_of, item_of, load_of};

use crate::exports::Exports;
use base_types::Memory;
use std::alloc::Global;
use syntax_tree::{LoadItem, LoadStmt, Top};
use values_modules::{Binding, Function, Module, ModuleValue};

// Adds the values of a load's items, under their names.
fn add_items(
    all: &mut Vec<Binding>,
    body: &Module,
    exports: &Exports<'_>,
    items: &[LoadItem],
) -> Result<(), Memory>
    requires { exports.now ≡ body.now.own }
    ensures { OnOk result (all.new.items ≡ all.old.items ++ frozen_items body.now
        (map item_of items.now)) }
{
    for item in items.iter() {
        if let Some(f) = exports.value(&item.exported) {
            let value = f.share()?;
            let name = item.local.share()?;
            all.push(Binding::new(name, value))?;
        }
    }
    Ok(())
}

/// Returns the names that loads bind, with the values of the modules.
pub fn frozen_loads(
    alloc: Global,
    loads: &[LoadStmt],
    modules: &[ModuleValue],
) -> Result<Vec<Binding>, Memory>
    ensures { IfOk result (λ v. v.items ≡ frozen_loads (map load_of loads.now) modules.now) }
{
    let mut all = Vec::new(alloc);
    for i in 0..loads.len().min(modules.len()) {
        let (body, items) = (modules[i].body(), loads[i].items.as_slice());
        let exports = Exports::of(alloc, body, items.len())?;
        add_items(&mut all, body, &exports, items)?;
    }
    Ok(all)
}

/// Returns the functions of a file, in its order.
pub fn functions_of(alloc: Global, tops: &[Top]) -> Result<Vec<Function>, Memory>
    ensures { IfOk result (λ v. v.items ≡ defs (map top_of tops.now)) }
{
    let mut all = Vec::new(alloc);
    for top in tops.iter() {
        if let Top::Def(f) = top {
            all.push(Function::new(f)?)?;
        }
    }
    Ok(all)
}
