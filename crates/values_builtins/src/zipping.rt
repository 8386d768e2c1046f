//! `zip`.
ghost use Rattle.std.specs.Prelude.{◌≡◌, map, drop, slice_get, IfOk};
ghost use Rattle.values_semantics.specs.Functions.{each_items, zipped, makes_tuples, heads};
ghost use Rattle.values_heap.specs.View.{store_of, Says, SaysItems};
ghost use Rattle.values_builtins.specs.Parts.{zip_from};
ghost use Rattle.values_builtins.specs.Results.{SaysLists, lists_of, items_seen};

use base_types::Memory;
use std::alloc::Global;
use values_heap::{Halt, Heap, Val};
use values_operators::items;

/// Evaluates `zip(..)`, or returns fault 5 or 13.
pub fn zip(heap: &mut Heap, xs: &[Val]) -> Result<Val, Halt>
    ensures { Says (zip_from xs.now (store_of heap.old)) result (store_of heap.new) }
{
    let lists = each_items(heap, xs)?;
    let tuples = make_rows(heap, lists.as_slice())?;
    heap.make_list(tuples)
}

// Returns the lists that loops over several values iterate over.
fn each_items(heap: &Heap, xs: &[Val]) -> Result<Vec<Vec<Val>>, Halt>
    ensures { SaysLists (each_items xs.now (store_of heap.now)) result (store_of heap.now) }
{
    let mut lists = Vec::new(heap.alloc);
    for x in xs.iter() {
        let list = items(heap, *x)?;
        lists.push(list)?;
    }
    Ok(lists)
}

// Makes a tuple of the first members, one of the second members and so on, up to the end of the shortest list.
fn make_rows(heap: &mut Heap, lists: &[Vec<Val>]) -> Result<Vec<Val>, Halt>
    ensures { SaysItems (makes_tuples (zipped (lists_of lists.now)) (store_of heap.old)) result
        (store_of heap.new) }
{
    let mut tuples = Vec::new(heap.alloc);
    let Some(shown) = lists.first() else {
        return Ok(tuples);
    };
    for i in 0..shown.len() {
        let Some(row) = row_at(heap.alloc, lists, i)? else {
            return Ok(tuples);
        };
        match heap.make_tuple(row) {
            Ok(tuple) => tuples.push(tuple)?,
            Err(halt) => return Err(halt),
        }
    }
    Ok(tuples)
}

// Returns the value at a place.
fn value_at(xs: &[Val], i: usize) -> Option<Val>
    ensures { result ≡ slice_get xs.now i }
{
    xs.get(i).copied()
}

// Returns the member of each list at a place, if each has one.
fn row_at(alloc: Global, lists: &[Vec<Val>], i: usize) -> Result<Option<Vec<Val>>, Memory>
    ensures { IfOk result (λ row. items_seen row ≡ heads (map (drop i) (lists_of lists.now))) }
{
    let mut row = Vec::new(alloc);
    for list in lists.iter() {
        match value_at(list.as_slice(), i) {
            Some(x) => row.push(x)?,
            None => return Ok(None),
        }
    }
    Ok(Some(row))
}
