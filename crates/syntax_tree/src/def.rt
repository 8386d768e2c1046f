//! Functions, loads and files.
ghost use Rattle.std.specs.Prelude.{◌≡◌, true, cond, map};
ghost use Rattle.std.specs.Option.{ForSome};
ghost use Rattle.std.specs.Arc.{arc_value};
ghost use Rattle.syntax_tree.specs.Suites.{stmts_of, param_of};
ghost use Rattle.syntax_tree.specs.Bindings.{function_names, differ};
ghost use Rattle.syntax_tree.specs.Requirements.{AreRequired};

use crate::expr::Expr;
use crate::stmt::Stmt;
use base_types::Text;
use indexmap::IndexSet;
use std::alloc::Global;
use std::sync::Arc;

/// A parameter, and its default.
pub struct Param {
    pub name: Text,
    pub default: Option<Arc<Expr, Global>>,
}

impl Drop for Param {
    fn drop(self) {
        let Param {
            name: _,
            default: _,
        } = self;
    }
}

/// A function with its line, and the names that a call of it has.
pub struct Def {
    pub line: usize,
    pub name: Text,
    pub params: Vec<Param>,
    pub body: Arc<Vec<Stmt>, Global>,
    /// The names of the parameters, followed by those that the body binds besides, each once, in the order in which
    /// they are bound first.
    pub names: Vec<Text>,
    /// Whether these names are known to differ. More than a few names are not compared.
    pub once: bool,
    /// The set of these names, if they are many and differ.
    pub index: Option<IndexSet<Text>>,
    /// How many parameters have no default, if all of them come before those that have one.
    pub required: Option<usize>,
    pub ghost bound: { names.items ≡ function_names (map param_of params.items) (stmts_of (arc_value body).items) },
    pub ghost distinct: { cond once (differ names.items) true ≡ true },
    pub ghost listed: { ForSome index (λ s. s.keys ≡ names.items) },
    pub ghost needed: { ForSome required (λ n. AreRequired n (map param_of params.items)) },
}

impl Drop for Def {
    fn drop(self) {
        let Def {
            line: _,
            name: _,
            params: _,
            body: _,
            names: _,
            once: _,
            index: _,
            required: _,
        } = self;
    }
}

/// A statement of a file.
#[derive(Drop)]
pub enum Top {
    Stmt(Stmt),
    Def(Arc<Def, Global>),
}

/// A name that a load binds, and the name that the other file exports.
pub struct LoadItem {
    pub local: Text,
    pub exported: Text,
}

impl Drop for LoadItem {
    fn drop(self) {
        let LoadItem {
            local: _,
            exported: _,
        } = self;
    }
}

/// A load statement with its line: the text of the label, and what it binds, in order.
pub struct LoadStmt {
    pub line: usize,
    pub label: Text,
    pub items: Vec<LoadItem>,
}

impl Drop for LoadStmt {
    fn drop(self) {
        let LoadStmt {
            line: _,
            label: _,
            items: _,
        } = self;
    }
}

/// The tree of a file.
pub struct File {
    /// The line of a first statement that is one string alone.
    pub leading: Option<usize>,
    pub loads: Vec<LoadStmt>,
    pub tops: Vec<Top>,
}

impl Drop for File {
    fn drop(self) {
        let File {
            leading: _,
            loads: _,
            tops: _,
        } = self;
    }
}
