//! Operations that need the heap alone.
ghost use Rattle.std.specs.Prelude.{◌≡◌, ◌<◌, ◌≤◌, IfOk};
ghost use Rattle.values_semantics.specs.Heap as h;
ghost use Rattle.values_semantics.specs.Indexing as ix;
ghost use Rattle.values_semantics.specs.Functions.{the_items};
ghost use Rattle.values_semantics.specs.Outcome as o;
ghost use Rattle.evaluator_semantics.specs.Loops.{locks, unlocks};
ghost use Rattle.values_heap.specs.View.{store_of, Says, SaysItems};

use base_types::Text;
use indexmap::IndexMap;
use values_heap::{Entry, Halt, Heap, Key, MAX_LENGTH, Object, Val};
use values_semantics::faults;

/// Takes one step, or returns fault 11.
pub fn tick(heap: &mut Heap) -> Result<(), Halt>
    ensures says { Says (h.walks (λ objects. o.tick) (store_of heap.old)) result
        (store_of heap.new) }
    ensures steps { IfOk result (λ _. heap.new.steps < heap.old.steps) }
{
    values_heap::tick(&mut heap.steps)
}

/// Makes a string of a file, or returns fault 13.
pub fn make_text(heap: &mut Heap, text: &Text) -> Result<Val, Halt>
    ensures says { Says (h.makes_text text.now (store_of heap.old)) result (store_of heap.new) }
    ensures steps { IfOk result (λ _. heap.new.steps ≤ heap.old.steps) }
{
    if text.as_str().len() > MAX_LENGTH {
        return Err(Halt::Code(faults::TOO_LARGE));
    }
    let bytes = values_heap::Bytes::of_text(text.share()?);
    heap.make(Object::Text(bytes))
}

/// Makes a list, or returns fault 13.
pub fn make_list(heap: &mut Heap, members: Vec<Val>) -> Result<Val, Halt>
    ensures says { Says (h.makes_list members.items (store_of heap.old)) result
        (store_of heap.new) }
    ensures steps { IfOk result (λ _. heap.new.steps ≤ heap.old.steps) }
{
    heap.make_list(members)
}

/// Makes a tuple, or returns fault 13.
pub fn make_tuple(heap: &mut Heap, members: Vec<Val>) -> Result<Val, Halt>
    ensures says { Says (h.makes_tuple members.items (store_of heap.old)) result
        (store_of heap.new) }
    ensures steps { IfOk result (λ _. heap.new.steps ≤ heap.old.steps) }
{
    heap.make_tuple(members)
}

/// Makes a dictionary, or returns fault 13.
pub fn make_dict(heap: &mut Heap, entries: IndexMap<Key, Entry>) -> Result<Val, Halt>
    ensures says { Says (h.makes_dict entries.entries (store_of heap.old)) result
        (store_of heap.new) }
    ensures steps { IfOk result (λ _. heap.new.steps ≤ heap.old.steps) }
{
    heap.make_dict(entries)
}

/// Evaluates `a[i]`.
pub fn index(heap: &mut Heap, a: Val, i: Val) -> Result<Val, Halt>
    ensures says { Says (ix.index a i (store_of heap.old)) result (store_of heap.new) }
    ensures steps { IfOk result (λ _. heap.new.steps ≤ heap.old.steps) }
{
    values::index(heap, a, i)
}

/// Evaluates `a[i:j]`.
pub fn slice(heap: &mut Heap, a: Val, i: Val, j: Val) -> Result<Val, Halt>
    ensures says { Says (ix.slice a i j (store_of heap.old)) result (store_of heap.new) }
    ensures steps { IfOk result (λ _. heap.new.steps ≤ heap.old.steps) }
{
    values::slice(heap, a, i, j)
}

/// Returns the values that a loop iterates over.
pub fn items(heap: &Heap, a: Val) -> Result<Vec<Val>, Halt>
    ensures { SaysItems (the_items a (store_of heap.now)) result (store_of heap.now) }
{
    values::items(heap, a)
}

/// Marks a list or dictionary as iterated, and charges the copy of its members that a loop iterates over.
#[tactic(auto, using(values_heap::proofs::Iterations::one_more))]
pub fn lock(heap: &mut Heap, a: Val) -> Result<(), Halt>
    ensures says { Says (locks a (store_of heap.old)) result (store_of heap.new) }
    ensures steps { heap.new.steps ≡ heap.old.steps }
{
    if let Val::At(place) = a {
        heap.charge_copy(place)?;
        heap.iterated.push(place)?;
    }
    Ok(())
}

/// Ends the iteration that began last.
#[tactic(auto, using(values_heap::proofs::Iterations::one_less))]
pub fn unlock(heap: &mut Heap, a: Val)
    ensures says { unlocks a (store_of heap.old) ≡ o.gives tt (store_of heap.new) }
    ensures steps { heap.new.steps ≡ heap.old.steps }
{
    if let Val::At(place) = a {
        heap.refund_copy(place);
        heap.iterated.pop();
    }
}

/// Executes `a[i] = x`.
pub fn set_index(heap: &mut Heap, a: Val, i: Val, x: Val) -> Result<(), Halt>
    ensures says { Says (ix.set_index a i x (store_of heap.old)) result (store_of heap.new) }
    ensures steps { IfOk result (λ _. heap.new.steps ≤ heap.old.steps) }
{
    values::set_index(heap, a, i, x)
}

/// Returns the key that a value is, by a walk, or fault 5 for a value that cannot be a key, or 11 or 12.
pub fn hash(heap: &mut Heap, x: Val) -> Result<Key, Halt>
    ensures says { Says (ix.hash x (store_of heap.old)) result (store_of heap.new) }
    ensures steps { IfOk result (λ _. heap.new.steps ≤ heap.old.steps) }
{
    values_operators::hash(heap, x)
}
