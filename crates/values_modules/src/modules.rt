//! Modules.
ghost use Rattle.std.specs.Prelude.{◌≡◌, IfOk, option_map};
ghost use Rattle.std.specs.Cmp.{partial_equiv_from_equiv};
ghost use Rattle.values_modules.specs.Values.{Body};
ghost use Rattle.values_modules.specs.Equal.{body_eq, loaded_eq};
ghost use Rattle.values_modules.specs.EqualLaws.{bodies_equiv, loaded_equiv};
ghost use Rattle.values_modules.specs.FunctionNames.{first_named};

use crate::bindings::{Binding, Defaults, Function};
use crate::functions::Functions;
use base_types::{Memory, Text};
use std::alloc::Global;
use std::marker::Model;
use std::sync::Arc;
use values_semantics::Bytes;

// The parts of a module.
#[derive(Drop)]
struct Parts {
    label: Text,
    path: Text,
    own: Vec<Binding>,
    loaded: Vec<Binding>,
    functions: Functions,
    defaults: Vec<Defaults>,
}

/// One .bzl file, shared: its label and path, its own globals in the order in which they were bound, the names that its
/// loads bound, its functions and their defaults.
pub struct Module {
    parts: Arc<Parts, Global>,
}

impl Drop for Module {
    fn drop(self) {
        let Module { parts: _ } = self;
    }
}

impl Model for Module {
    ghost use Rattle.values_modules.specs.Values.{Body};
    ghost use Rattle.values_modules.specs.Storage.{body_code};
    ghost use Rattle.values_modules.specs.View.{body_of};
    ghost use Rattle.std.specs.Arc.{arc_value};

    ghost Value = { Body };

    ghost coded = { body_code };

    ghost view = { λ m. body_of (arc_value m.parts) };
}

impl Module {
    /// Makes a module.
    pub fn new(
        alloc: Global,
        label: Text,
        path: Text,
        own: Vec<Binding>,
        loaded: Vec<Binding>,
        functions: Vec<Function>,
        defaults: Vec<Defaults>,
    ) -> Result<Module, Memory>
        ensures { IfOk result
            (λ m. m ≡ record {
              label = label;
              path = path;
              own = own.items;
              loaded = loaded.items;
              functions = functions.items;
              defaults = defaults.items;
            }) }
    {
        let parts = Parts {
            label,
            path,
            own,
            loaded,
            functions: Functions::new(functions)?,
            defaults,
        };
        let parts = Arc::new(alloc, parts)?;
        Ok(Module { parts })
    }

    /// Returns the same module, shared.
    pub fn share(&self) -> Result<Module, Memory>
        ensures { IfOk result (λ m. m ≡ self.now) }
    {
        let parts = Arc::try_clone(&self.parts)?;
        Ok(Module { parts })
    }

    /// Returns the label.
    pub fn label(&self) -> &Text
        ensures { result.now ≡ self.now.label }
    {
        &self.parts.label
    }

    /// Returns the path.
    pub fn path(&self) -> &Text
        ensures { result.now ≡ self.now.path }
    {
        &self.parts.path
    }

    /// Returns the module's own globals, in the order in which they were bound.
    pub fn own(&self) -> &[Binding]
        ensures { result.now ≡ self.now.own }
    {
        self.parts.own.as_slice()
    }

    /// Returns the names that the module's loads bound.
    pub fn loaded_names(&self) -> &[Binding]
        ensures { result.now ≡ self.now.loaded }
    {
        self.parts.loaded.as_slice()
    }

    /// Returns the module's functions.
    pub fn functions(&self) -> &[Function]
        ensures { result.now ≡ self.now.functions }
    {
        self.parts.functions.as_slice()
    }

    /// Returns the first of the module's functions with a name.
    pub fn function(&self, name: &Bytes) -> Option<&Function>
        ensures { option_map (λ f. f.now) result ≡ first_named name.now self.now.functions }
    {
        self.parts.functions.function_named(name)
    }

    /// Returns the defaults of the module's functions.
    pub fn defaults(&self) -> &[Defaults]
        ensures { result.now ≡ self.now.defaults }
    {
        self.parts.defaults.as_slice()
    }
}

impl PartialEq for Module {
    ghost eq = { body_eq };

    ghost laws = { partial_equiv_from_equiv bodies_equiv };

    fn eq(&self, other: &Module) -> bool {
        self.label() == other.label()
            && self.path() == other.path()
            && self.own() == other.own()
            && self.loaded_names() == other.loaded_names()
            && self.functions() == other.functions()
            && self.defaults() == other.defaults()
    }
}

impl Eq for Module {
    ghost laws = { bodies_equiv };
}

/// The value of a .bzl file: its module, and all modules that its loads reach, each once.
pub struct ModuleValue {
    body: Module,
    reached: Vec<Module>,
}

impl Drop for ModuleValue {
    fn drop(self) {
        let ModuleValue {
            body: _,
            reached: _,
        } = self;
    }
}

impl Model for ModuleValue {
    ghost use Rattle.values_modules.specs.Values.{ModuleValue};
    ghost use Rattle.values_modules.specs.Storage.{loaded_code};

    ghost Value = { ModuleValue };

    ghost coded = { loaded_code };

    ghost view = { λ l. record { body = l.body; reached = l.reached.items } };
}

impl ModuleValue {
    /// Makes the value of a file from its module and those that it reaches.
    pub fn new(body: Module, reached: Vec<Module>) -> ModuleValue
        ensures { result ≡ record { body = body; reached = reached.items } }
    {
        ModuleValue { body, reached }
    }

    /// Returns the module itself.
    pub fn body(&self) -> &Module
        ensures { result.now ≡ self.now.body }
    {
        &self.body
    }

    /// Returns the modules that it reaches.
    pub fn reachable(&self) -> &[Module]
        ensures { result.now ≡ self.now.reached }
    {
        self.reached.as_slice()
    }
}

impl PartialEq for ModuleValue {
    ghost eq = { loaded_eq };

    ghost laws = { partial_equiv_from_equiv loaded_equiv };

    fn eq(&self, other: &ModuleValue) -> bool {
        self.body == other.body && self.reached == other.reached
    }
}

impl Eq for ModuleValue {
    ghost laws = { loaded_equiv };
}
