//! Frozen values with exact equality.
ghost use Rattle.std.specs.Prelude.{◌≡◌, ◌≤◌, IfOk, IfSome};
ghost use Rattle.std.specs.Arc.{arc_value};
ghost use Rattle.std.specs.Cmp.{partial_equiv_from_equiv};
ghost use Rattle.values_semantics.specs.Freezing.{Fz, freezes, thaw};
ghost use Rattle.values_heap.specs.View.{store_of, Says};
ghost use Rattle.values_freeze.specs.Laid.{IsLaid};
ghost use Rattle.values_freeze.specs.View.{frozen_of};
ghost use Rattle.values_freeze.specs.Same.{same, depth};
ghost use Rattle.values_freeze.specs.SameLaws.{same_equiv};

use crate::frozen::Frozen;
use crate::laid::{Layout, attach, make_layout};
use crate::same::same_frozen;
use crate::thawing::thaw;
use crate::values;
use base_types::Memory;
use std::alloc::Global;
use std::marker::Model;
use std::sync::Arc;
use values_heap::{Halt, Heap, Val};

/// A frozen value as freezing gives it, at most 64 containers deep. A contract sees its tree, and two are equal exactly
/// where it sees one tree.
///
/// A value of many parts is also laid out as objects, so that putting it on a heap takes no longer than a small one.
pub struct FrozenValue {
    inner: Frozen,
    laid: Option<Arc<Layout, Global>>,
}

impl Drop for FrozenValue {
    fn drop(self) {
        let FrozenValue { inner: _, laid: _ } = self;
    }
}

impl Model for FrozenValue {
    ghost use Rattle.std.specs.Prelude.{◌≤◌, IfSome};
    ghost use Rattle.std.specs.Arc.{arc_value};
    ghost use Rattle.values_semantics.specs.Freezing.{Fz};
    ghost use Rattle.values_freeze.specs.Laid.{IsLaid};
    ghost use Rattle.values_freeze.specs.View.{frozen_of};
    ghost use Rattle.values_freeze.specs.Same.{depth};
    ghost use Rattle.values_freeze.specs.Storage.{frozen_code};

    ghost Value = { Fz };

    ghost coded = { frozen_code };

    ghost view = { λ f. frozen_of f.inner };

    ghost invariant = { λ f. (depth (frozen_of f.inner) ≤ 64) × IfSome f.laid (λ l. IsLaid (frozen_of f.inner) (arc_value l)) };
}

impl FrozenValue {
    /// Returns the tree.
    pub fn as_frozen(&self) -> &Frozen
        ensures { frozen_of result.now ≡ self.now }
    {
        &self.inner
    }

    /// Returns the same value, shared.
    pub fn share(&self) -> Result<FrozenValue, Memory>
        ensures { IfOk result (λ f. f ≡ self.now) }
    {
        let inner = self.inner.share()?;
        let laid = share_layout(&self.laid)?;
        Ok(FrozenValue { inner, laid })
    }
}

/// Returns the tree of a value on a heap, or fault 11 or 12. It is not a method of `FrozenValue`, so that code that
/// names this type need not know the heap.
pub fn freeze_value(heap: &mut Heap, x: Val) -> Result<FrozenValue, Halt>
    ensures { Says (freezes x (store_of heap.old)) result (store_of heap.new) }
{
    let inner = values::freeze(heap, x)?;
    let laid = make_layout(heap.alloc, &inner)?;
    Ok(FrozenValue { inner, laid })
}

/// Puts a frozen value on a heap, where its lists and dictionaries are frozen. It takes no steps. A value of many parts
/// is attached, which takes as long as a value of few parts.
pub fn thaw_value(heap: &mut Heap, f: &FrozenValue) -> Result<Val, Halt>
    ensures { Says (thaw f.now (store_of heap.old)) result (store_of heap.new) }
{
    match &f.laid {
        Some(laid) => attach(heap, laid),
        None => thaw(heap, &f.inner),
    }
}

// Returns what is laid out, shared.
fn share_layout(laid: &Option<Arc<Layout, Global>>) -> Result<Option<Arc<Layout, Global>>, Memory>
    ensures { (f : Fz) → IfSome laid.now (λ l. IsLaid f (arc_value l)) → IfOk result
        (λ o. IfSome o (λ l. IsLaid f (arc_value l))) }
{
    match laid {
        Some(laid) => Ok(Some(Arc::try_clone(laid)?)),
        None => Ok(None),
    }
}

impl PartialEq for FrozenValue {
    ghost eq = { same };

    ghost laws = { partial_equiv_from_equiv same_equiv };

    fn eq(&self, other: &FrozenValue) -> bool {
        same_frozen(&self.inner, &other.inner)
    }
}

impl Eq for FrozenValue {
    ghost laws = { same_equiv };
}
