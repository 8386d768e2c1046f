//! Names with their values, functions, and their defaults.
ghost use Rattle.std.specs.Prelude.{◌≡◌, IfOk};
ghost use Rattle.std.specs.Cmp.{partial_equiv_from_equiv};
ghost use Rattle.std.specs.Arc.{arc_value};
ghost use Rattle.syntax_tree.specs.Statements.{fn_of};
ghost use Rattle.values_freeze.specs.View.{members_of};
ghost use Rattle.values_modules.specs.Same.{same_fn};
ghost use Rattle.values_modules.specs.SameLaws.{fns_equiv};
ghost use Rattle.values_modules.specs.Equal.{frozen_eq, defaults_eq};
ghost use Rattle.values_modules.specs.EqualLaws.{frozen_equiv, defaults_equiv};

use crate::same_def;
use base_types::{Memory, Text};
use std::alloc::Global;
use std::marker::Model;
use std::sync::Arc;
use syntax_tree::Def;
use values_freeze::FrozenValue;

/// A name with its value.
pub struct Binding {
    name: Text,
    value: FrozenValue,
}

impl Drop for Binding {
    fn drop(self) {
        let Binding { name: _, value: _ } = self;
    }
}

impl Model for Binding {
    ghost use Rattle.values_modules.specs.Values.{Frozen};
    ghost use Rattle.values_modules.specs.Storage.{binding_code};

    ghost Value = { Frozen };

    ghost coded = { binding_code };

    ghost view = { λ b. record { name = b.name; value = b.value } };
}

impl Binding {
    /// Makes a binding of a name with its value.
    pub fn new(name: Text, value: FrozenValue) -> Binding
        ensures { result ≡ record { name = name; value = value } }
    {
        Binding { name, value }
    }

    /// Returns the name.
    pub fn name(&self) -> &Text
        ensures { result.now ≡ self.now.name }
    {
        &self.name
    }

    /// Returns the value.
    pub fn value(&self) -> &FrozenValue
        ensures { result.now ≡ self.now.value }
    {
        &self.value
    }
}

impl PartialEq for Binding {
    ghost eq = { frozen_eq };

    ghost laws = { partial_equiv_from_equiv frozen_equiv };

    fn eq(&self, other: &Binding) -> bool {
        self.name == other.name && self.value == other.value
    }
}

impl Eq for Binding {
    ghost laws = { frozen_equiv };
}

/// The values of a function's defaults, in the order of its parameters.
pub struct Defaults {
    name: Text,
    values: Vec<FrozenValue>,
}

impl Drop for Defaults {
    fn drop(self) {
        let Defaults { name: _, values: _ } = self;
    }
}

impl Model for Defaults {
    ghost use Rattle.values_freeze.specs.View.{members_of};
    ghost use Rattle.values_modules.specs.Values.{Defaults};
    ghost use Rattle.values_modules.specs.Storage.{defaults_code};

    ghost Value = { Defaults };

    ghost coded = { defaults_code };

    ghost view = { λ d. record { name = d.name; values = members_of d.values.items } };
}

impl Defaults {
    /// Makes the defaults of a function from its name and their values.
    pub fn new(name: Text, values: Vec<FrozenValue>) -> Defaults
        ensures { result ≡ record { name = name; values = members_of values.items } }
    {
        Defaults { name, values }
    }

    /// Returns the function's name.
    pub fn name(&self) -> &Text
        ensures { result.now ≡ self.now.name }
    {
        &self.name
    }

    /// Returns the values.
    pub fn values(&self) -> &[FrozenValue]
        ensures { members_of result.now ≡ self.now.values }
    {
        self.values.as_slice()
    }
}

impl PartialEq for Defaults {
    ghost eq = { defaults_eq };

    ghost laws = { partial_equiv_from_equiv defaults_equiv };

    #[tactic(auto, using(crate::specs::EqualLaws::forth))]
    fn eq(&self, other: &Defaults) -> bool {
        self.name == other.name && self.values == other.values
    }
}

impl Eq for Defaults {
    ghost laws = { defaults_equiv };
}

/// A function of a file, shared. A contract sees its tree, line for line.
pub struct Function {
    def: Arc<Def, Global>,
}

impl Drop for Function {
    fn drop(self) {
        let Function { def: _ } = self;
    }
}

impl Model for Function {
    ghost use Rattle.std.specs.Arc.{arc_value};
    ghost use Rattle.syntax_tree.specs.Tree.{Fn};
    ghost use Rattle.syntax_tree.specs.Statements.{fn_of};
    ghost use Rattle.values_modules.specs.TreeStorage.{fn_code};

    ghost Value = { Fn };

    ghost coded = { fn_code };

    ghost view = { λ f. fn_of (arc_value f.def) };
}

impl Function {
    /// Makes a function of a file, which shares its tree.
    pub fn new(def: &Arc<Def, Global>) -> Result<Function, Memory>
        ensures { IfOk result (λ f. f ≡ fn_of (arc_value def.now)) }
    {
        let def = Arc::try_clone(def)?;
        Ok(Function { def })
    }

    /// Returns the tree.
    pub fn def(&self) -> &Arc<Def, Global>
        ensures { fn_of (arc_value result.now) ≡ self.now }
    {
        &self.def
    }
}

impl PartialEq for Function {
    ghost eq = { same_fn };

    ghost laws = { partial_equiv_from_equiv fns_equiv };

    fn eq(&self, other: &Function) -> bool {
        same_def(&self.def, &other.def)
    }
}

impl Eq for Function {
    ghost laws = { fns_equiv };
}
