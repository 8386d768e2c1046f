//! Targets as they are in a package: in byte order of their names, one of each name.
ghost use Rattle.std.specs.Prelude.{nat_eq, refl};
ghost use Rattle.std.specs.Cmp.{partial_equiv_from_equiv, on_equiv, on_po};
ghost use Rattle.std.specs.Cmp.Lexicographic.{pointwise, slice_cmp, nat_list_eq_equiv, texts_po, texts_ties, on_texts};
ghost use Rattle.std.specs.Ordering.{nat_cmp, as_partial_cmp};

use evaluator_state::Target;
use std::cmp::Ordering;
use std::marker::Model;

/// A target that is compared by its name alone. A contract sees the target as the package has it.
#[derive(Drop)]
pub struct ByName<'a> {
    pub target: &'a Target,
}

impl<'a> Model for ByName<'a> {
    ghost use Rattle.values_modules.specs.Values.{Target};
    ghost use Rattle.evaluator_state.specs.View.{target_of};

    ghost Value = { Target };

    ghost view = { λ b. target_of b.target.now };
}

impl<'a> PartialEq for ByName<'a> {
    ghost eq = { λ x y. pointwise nat_eq x.name y.name };

    ghost laws = { partial_equiv_from_equiv (on_equiv (λ x. x.name) nat_list_eq_equiv) };

    fn eq(&self, other: &ByName<'a>) -> bool {
        self.target.name == other.target.name
    }
}

impl<'a> Eq for ByName<'a> {
    ghost laws = { on_equiv (λ x. x.name) nat_list_eq_equiv };
}

impl<'a> PartialOrd for ByName<'a> {
    ghost partial_cmp = { as_partial_cmp (λ x y. slice_cmp nat_cmp x.name y.name) };

    ghost laws = { on_po (λ x. x.name) texts_po };

    fn partial_cmp(&self, other: &ByName<'a>) -> Option<Ordering> {
        Some(self.cmp(other))
    }
}

impl<'a> Ord for ByName<'a> {
    ghost cmp = { λ x y. slice_cmp nat_cmp x.name y.name };

    ghost total = { on_texts (λ x. x.name) };

    ghost matches_partial_cmp = { λ x y. refl };

    ghost matches_eq = { λ x y. texts_ties x.name y.name };

    fn cmp(&self, other: &ByName<'a>) -> Ordering {
        let (name, other) = (&self.target.name, &other.target.name);
        name.as_slice().cmp(other.as_slice())
    }
}
