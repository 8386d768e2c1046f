//! What a session knows of packages and modules: their values, and which packages have changed since a version.
ghost use Rattle.std.specs.Prelude.{◌≡◌, IfOk};
ghost use Rattle.std.specs.Option.{option_map};
ghost use Rattle.std.specs.Arc.{arc_value};
ghost use Rattle.loader_commands.specs.View.{texts_seen};
ghost use Rattle.loader_answers.specs.Holding as specs;

use super::Session;
use base_types::{Memory, Text};
use keys::{Key, Value};
use loader_answers::{Changes, changed_names, unknown_names};
use loader_commands::module_label;
use std::sync::Arc;

impl Session {
    /// Returns which of these packages have changed after a version, and of which no value is known. A package is in
    /// neither list if its value is known and stayed as it was. Nothing is evaluated. It costs a look-up for each name,
    /// and takes memory for names alone. Returns `Memory` if an allocation fails.
    pub fn changed_since(&self, names: &[&str], version: u32) -> Result<Changes, Memory>
        ensures changed { IfOk result
            (λ found. found.changed.items ≡ specs.changed_names self.now.graph version
            (texts_seen names.now)) }
        ensures unknown { IfOk result
            (λ found. found.unknown.items ≡ specs.unknown_names self.now.graph
            (texts_seen names.now)) }
    {
        Ok(Changes {
            changed: changed_names(self.alloc, &self.graph, names, version)?,
            unknown: unknown_names(self.alloc, &self.graph, names)?,
        })
    }

    /// Borrows the known value of a package: its targets, its fault, or the cycle to which its loads lead. Returns
    /// `None` if the package was never loaded, or if an edit since then may have changed it. After a load of the
    /// package that ended well the value is there. Nothing is evaluated or copied. Returns `Memory` if the allocation
    /// for the name fails.
    pub fn package(&self, name: &str) -> Result<Option<&Arc<Value>>, Memory>
        ensures { IfOk result (λ found. option_map (λ v. arc_value v.now) found
            ≡ specs.held_package self.now.graph name.now) }
    {
        let key = Key::Package(Text::new(self.alloc, name)?);
        Ok(self.graph.get(&key))
    }

    /// Borrows the known value of a module, by the text of its label, as `package` does. Returns `None` also if the
    /// text is not the label of a module.
    pub fn module(&self, label: &str) -> Result<Option<&Arc<Value>>, Memory>
        ensures { IfOk result (λ found. option_map (λ v. arc_value v.now) found
            ≡ specs.held_module self.now.graph label.now) }
    {
        let Some(label) = module_label(self.alloc, label)? else {
            return Ok(None);
        };
        let key = Key::Module(label.text().share()?);
        Ok(self.graph.get(&key))
    }
}
