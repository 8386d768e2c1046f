//! The targets that an evaluation has made.
ghost use Rattle.std.specs.Prelude.{◌≡◌, ◌++◌, ◌∷◌, [], true, false, not, map, nat_eq, refl, IfOk, OnErr};
ghost use Rattle.std.specs.Bool.{OnTrue, OnFalse};
ghost use Rattle.std.specs.Cmp.{partial_equiv_from_equiv};
ghost use Rattle.std.specs.Cmp.Lexicographic.{pointwise, slice_cmp, nat_list_eq_equiv, nat_list_cmp_total, texts_po, texts_ties};
ghost use Rattle.std.specs.Ordering.{nat_cmp, as_partial_cmp};
ghost use Rattle.evaluator_semantics.specs.Names.{has_name};
ghost use Rattle.evaluator_state.specs.TargetNames.{name_of};

use crate::state::Target;
use base_types::Memory;
use std::alloc::Global;
use std::cmp::Ordering;
use std::collections::BTreeSet;
use std::marker::Model;
use values_heap::Bytes;

// The name of a target, which is before another in byte order.
#[derive(Drop)]
struct TargetName {
    name: Bytes,
}

impl Model for TargetName {
    ghost use Rattle.std.specs.Prelude.{ℕ, List};

    ghost Value = { List ℕ };

    ghost view = { λ n. n.name };
}

impl PartialEq for TargetName {
    ghost eq = { pointwise nat_eq };

    ghost laws = { partial_equiv_from_equiv nat_list_eq_equiv };

    fn eq(&self, other: &TargetName) -> bool {
        self.name == other.name
    }
}

impl Eq for TargetName {
    ghost laws = { nat_list_eq_equiv };
}

impl PartialOrd for TargetName {
    ghost partial_cmp = { as_partial_cmp (slice_cmp nat_cmp) };

    ghost laws = { texts_po };

    fn partial_cmp(&self, other: &TargetName) -> Option<Ordering> {
        Some(self.cmp(other))
    }
}

impl Ord for TargetName {
    ghost cmp = { slice_cmp nat_cmp };

    ghost total = { nat_list_cmp_total };

    ghost matches_partial_cmp = { λ x y. refl };

    ghost matches_eq = { texts_ties };

    fn cmp(&self, other: &TargetName) -> Ordering {
        self.name.as_slice().cmp(other.name.as_slice())
    }
}

/// The targets of a package in the order in which they were made, no two of which have one name. To find whether a name
/// is used takes as many comparisons as the number of targets has binary digits. A contract sees the targets.
pub struct PackageTargets {
    items: Vec<Target>,
    names: BTreeSet<TargetName>,
}

impl Drop for PackageTargets {
    fn drop(self) {
        let PackageTargets { items: _, names: _ } = self;
    }
}

impl Model for PackageTargets {
    ghost use Rattle.std.specs.Prelude.{List};
    ghost use Rattle.evaluator_state.specs.TargetNames.{HasNames};
    ghost use Rattle.evaluator_state.specs.declared.state.Target.{Target};

    ghost Value = { List Target };

    ghost view = { λ m. m.items.items };

    ghost invariant = { λ m. HasNames m.items.items m.names };
}

impl PackageTargets {
    /// Makes a list without targets.
    pub fn new(alloc: Global) -> PackageTargets
        ensures { result ≡ [] }
    {
        PackageTargets {
            items: Vec::new(alloc),
            names: BTreeSet::new(alloc),
        }
    }

    /// Adds a target as the last if none has its name, and returns whether none had. Returns `Memory`, and adds none,
    /// if an allocation fails.
    pub fn add(&mut self, target: Target) -> Result<bool, Memory>
        ensures added { IfOk result
            (λ added. added ≡ not (has_name target.name (map name_of self.old))) }
        ensures last { IfOk result (λ added. OnTrue added (self.new ≡ self.old ++ target ∷ [])) }
        ensures same { IfOk result (λ added. OnFalse added (self.new ≡ self.old)) }
        ensures refused { OnErr result (self.new ≡ self.old) }
    {
        let name = target.name.share()?;
        self.items.reserve(1)?;
        if !self.names.insert(TargetName { name })? {
            return Ok(false);
        }
        self.items.push_reserved(target);
        Ok(true)
    }

    /// Returns the targets.
    pub fn as_slice(&self) -> &[Target]
        ensures { result.now ≡ self.now }
    {
        self.items.as_slice()
    }
}
