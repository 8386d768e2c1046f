//! What is read of an object. A reader sees its members and entries by their places and keys alone, and not how they
//! are stored.
ghost use Rattle.std.specs.Prelude.{◌≡◌, ◌++◌, [], map, length, slice_get, option_map, ◌==◌, ◌<◌, ◌^◌, Some, IfOk};
ghost use Rattle.values_semantics.specs.Comparing.{entry_at};
ghost use Rattle.values_semantics.specs.Indexing.{member, cut};
ghost use Rattle.values_semantics.specs.Operators.{repeated};
ghost use Rattle.values_objects.specs.ListSizes.{SizedAs, CutAs};
ghost use Rattle.values_objects.specs.Objects.{object_of};
ghost use Rattle.values_objects.specs.Looks.{seen_object, entry_seen};
ghost use Rattle.values_objects.specs.Numbers.{shown};
ghost use Rattle.values_frozen_objects.specs.Shift.{moved, moved_val, moved_pair};
ghost use Rattle.values_frozen_objects.specs.Objects.{frozen_obj};

use crate::halt::Halt;
use crate::lists::{concat_into, fill, place, repeated_into, slice_bound_or, subrange};
use crate::numbers::Numbers;
use crate::object::Object;
use crate::spare::SpareRoom;
use base_types::{Memory, Text};
use indexmap::IndexMap;
use std::alloc::Global;
use std::marker::Model;
use values_frozen_objects::{FrozenDict, FrozenObject, FrozenVal};
use values_semantics::{Bytes, Entry, Key, Val, faults};

// Where the members of an object are: in the heap's own object, in a frozen one that is after `base` others, or nowhere,
// since they are consecutive numbers.
#[derive(Drop)]
enum MemberStore<'a> {
    Own(&'a [Val]),
    Lent { items: &'a [FrozenVal], base: u32 },
    Numbers(&'a Numbers),
}

/// The members of a list or tuple, in order. A contract sees the values.
#[derive(Drop)]
pub struct Members<'a> {
    held: MemberStore<'a>,
}

impl<'a> Model for Members<'a> {
    ghost use Rattle.std.specs.Prelude.{List};
    ghost use Rattle.std.specs.Coded.{coded_list};
    ghost use Rattle.values_semantics.specs.declared.val.Val.{Val};
    ghost use Rattle.values_semantics.specs.contracts.val.Val as v;
    ghost use Rattle.values_objects.specs.Held.{held_members};

    ghost Value = { List Val };

    ghost coded = { coded_list v.the_row.coded };

    ghost view = { λ m. held_members m.held };
}

// Returns attached values, in a list of the evaluation's own that is empty.
fn copied_lent(empty: Vec<Val>, items: &[FrozenVal], base: u32) -> Result<Vec<Val>, Memory>
    requires { empty.items ≡ [] }
    ensures { IfOk result (λ v. v.items ≡ map (moved_val base) items.now) }
{
    let mut all = empty;
    all.reserve_exact(items.len())?;
    for x in items.iter() {
        all.push(x.shift(base))?;
    }
    Ok(all)
}

// Returns the part of values between two bounds, or fault 5.
fn cut_own(spare: &mut SpareRoom, items: &[Val], from: Val, to: Val) -> Result<Vec<Val>, Halt>
    ensures { CutAs (cut items.now from to) result }
{
    let (Some(from), Some(to)) = (
        slice_bound_or(0, from, items.len()),
        slice_bound_or(items.len(), to, items.len()),
    ) else {
        return Err(Halt::Code(faults::WRONG_TYPE));
    };
    let part = subrange(items, from, to);
    Ok(fill(spare.take(part.len()), part)?)
}

// Returns the part of attached values between two bounds, or fault 5.
fn cut_lent(
    spare: &mut SpareRoom,
    items: &[FrozenVal],
    base: u32,
    from: Val,
    to: Val,
) -> Result<Vec<Val>, Halt>
    ensures { CutAs (cut (map (moved_val base) items.now) from to) result }
{
    let (Some(from), Some(to)) = (
        slice_bound_or(0, from, items.len()),
        slice_bound_or(items.len(), to, items.len()),
    ) else {
        return Err(Halt::Code(faults::WRONG_TYPE));
    };
    let part = subrange(items, from, to);
    Ok(copied_lent(spare.take(part.len()), part, base)?)
}

// Returns the part of numbers between two bounds, or fault 5.
fn cut_numbers(
    spare: &mut SpareRoom,
    numbers: &Numbers,
    from: Val,
    to: Val,
) -> Result<Vec<Val>, Halt>
    ensures { CutAs (cut (shown numbers.now) from to) result }
{
    let (Some(from), Some(to)) = (
        slice_bound_or(0, from, numbers.len()),
        slice_bound_or(numbers.len(), to, numbers.len()),
    ) else {
        return Err(Halt::Code(faults::WRONG_TYPE));
    };
    let part = numbers.between(from, to);
    Ok(part.copy_into(spare.take(part.len()))?)
}

impl<'a> Members<'a> {
    /// Shows values as the members of an object.
    #[inline(always)]
    pub fn new(items: &'a [Val]) -> Members<'a>
        ensures { result ≡ items.now }
    {
        Members {
            held: MemberStore::Own(items),
        }
    }

    // Shows the values of a frozen object that is after `base` others.
    #[inline(always)]
    fn attached(items: &'a [FrozenVal], base: u32) -> Members<'a>
        ensures { result ≡ map (moved_val base) items.now }
    {
        Members {
            held: MemberStore::Lent { items, base },
        }
    }

    /// Returns how many members there are.
    #[inline(always)]
    pub fn len(&self) -> usize
        ensures number { result ≡ length self.now }
        ensures within { result < 2 ^ 63 }
    {
        match &self.held {
            MemberStore::Own(items) => items.len(),
            MemberStore::Lent { items, .. } => items.len(),
            MemberStore::Numbers(numbers) => numbers.len(),
        }
    }

    /// Returns whether there is no member.
    pub fn is_empty(&self) -> bool
        ensures { result ≡ (length self.now == 0) }
    {
        self.len() == 0
    }

    /// Returns the member at a place, if there is one.
    #[inline(always)]
    #[tactic(auto, using(crate::proofs::Lent::member_moved))]
    pub fn get(&self, i: usize) -> Option<Val>
        ensures { result ≡ slice_get self.now i }
    {
        match &self.held {
            MemberStore::Own(items) => items.get(i).copied(),
            MemberStore::Lent { items, base } => match items.get(i) {
                Some(x) => Some(x.shift(*base)),
                None => None,
            },
            MemberStore::Numbers(numbers) => numbers.get(i),
        }
    }

    /// Returns the member at a place. There has to be one.
    #[inline(always)]
    pub fn at(&self, i: usize) -> Val
        requires { i < length self.now }
        ensures { slice_get self.now i ≡ Some result }
    {
        self.get(i).unwrap()
    }

    /// Returns the member at an index. A negative index counts from the end.
    #[inline(always)]
    pub fn member(&self, i: i64) -> Option<Val>
        ensures { result ≡ member self.now i }
    {
        match place(i, self.len()) {
            Some(at) => self.get(at),
            None => None,
        }
    }

    // Returns the members in a list that is empty.
    fn copy_into(&self, empty: Vec<Val>) -> Result<Vec<Val>, Memory>
        requires { empty.items ≡ [] }
        ensures { IfOk result (λ v. v.items ≡ self.now) }
    {
        match &self.held {
            MemberStore::Own(items) => fill(empty, items),
            MemberStore::Lent { items, base } => copied_lent(empty, items, *base),
            MemberStore::Numbers(numbers) => numbers.copy_into(empty),
        }
    }

    /// Returns the members in a list of their own.
    pub fn to_vec(&self, alloc: Global) -> Result<Vec<Val>, Memory>
        ensures { IfOk result (λ v. v.items ≡ self.now) }
    {
        self.copy_into(Vec::new(alloc))
    }

    /// Returns the members in a list of their own, in memory that was kept for one if there is some.
    pub fn copy_in(&self, spare: &mut SpareRoom) -> Result<Vec<Val>, Memory>
        ensures { IfOk result (λ v. v.items ≡ self.now) }
    {
        self.copy_into(spare.take(self.len()))
    }

    /// Returns the part between two bounds, or fault 5.
    pub fn slice(&self, spare: &mut SpareRoom, from: Val, to: Val) -> Result<Vec<Val>, Halt>
        ensures { CutAs (cut self.now from to) result }
    {
        match &self.held {
            MemberStore::Own(items) => cut_own(spare, items, from, to),
            MemberStore::Lent { items, base } => cut_lent(spare, items, *base, from, to),
            MemberStore::Numbers(numbers) => cut_numbers(spare, numbers, from, to),
        }
    }

    /// Returns these members followed by others, or fault 13.
    pub fn concat(&self, spare: &mut SpareRoom, others: &Members<'_>) -> Result<Vec<Val>, Halt>
        ensures { SizedAs (self.now ++ others.now) result }
    {
        let empty = spare.take(self.len().saturating_add(others.len()));
        match (&self.held, &others.held) {
            (MemberStore::Own(items), MemberStore::Own(more)) => concat_into(empty, items, more),
            _ => {
                let items = self.copy_in(spare)?;
                let more = others.copy_in(spare)?;
                concat_into(empty, items.as_slice(), more.as_slice())
            }
        }
    }

    /// Returns the members repeated `n` times, or fault 13; a negative number repeats nothing.
    pub fn repeat(&self, spare: &mut SpareRoom, n: i64) -> Result<Vec<Val>, Halt>
        ensures { SizedAs (repeated self.now n) result }
    {
        let empty = spare.take(room_of(self.len(), n));
        match &self.held {
            MemberStore::Own(items) => repeated_into(spare.alloc, empty, items, n),
            _ => {
                let items = self.copy_in(spare)?;
                repeated_into(spare.alloc, empty, items.as_slice(), n)
            }
        }
    }
}

// Returns for how many members room is made if so many are repeated `n` times.
fn room_of(len: usize, n: i64) -> usize {
    len.saturating_mul(n.max(0) as usize)
}

// Where the entries of a dictionary are, as in `MemberStore`.
#[derive(Drop)]
enum EntryStore<'a> {
    Own(&'a IndexMap<Key, Entry>),
    Lent { dict: &'a FrozenDict, base: u32 },
}

/// The entries of a dictionary, in order. A contract sees them with their keys.
#[derive(Drop)]
pub struct Entries<'a> {
    held: EntryStore<'a>,
}

impl<'a> Model for Entries<'a> {
    ghost use Rattle.values_semantics.specs.Heap.{Entries};
    ghost use Rattle.values_objects.specs.Held.{held_entries};

    ghost Value = { Entries };

    ghost view = { λ e. held_entries e.held };
}

// Returns attached entries, in a list of the evaluation's own.
fn copied_pairs(alloc: Global, dict: &FrozenDict, base: u32) -> Result<Vec<Entry>, Memory>
    ensures { IfOk result (λ v. v.items ≡ map (λ e. e.1) (map (moved_pair base) dict.now)) }
{
    let mut all = Vec::with_capacity(alloc, dict.len())?;
    for i in 0..dict.len() {
        let Some((_key, pair)) = dict.get_index(i) else {
            return Ok(all);
        };
        all.push(pair.shift(base))?;
    }
    Ok(all)
}

impl<'a> Entries<'a> {
    /// Shows a table as the entries of a dictionary.
    #[inline(always)]
    pub fn new(map: &'a IndexMap<Key, Entry>) -> Entries<'a>
        ensures { result ≡ map.now.entries }
    {
        Entries {
            held: EntryStore::Own(map),
        }
    }

    // Shows the entries of a frozen dictionary that is after `base` objects.
    #[inline(always)]
    fn attached(dict: &'a FrozenDict, base: u32) -> Entries<'a>
        ensures { result ≡ map (moved_pair base) dict.now }
    {
        Entries {
            held: EntryStore::Lent { dict, base },
        }
    }

    /// Returns how many entries there are.
    #[inline(always)]
    pub fn len(&self) -> usize
        ensures len { result ≡ length self.now }
        ensures within { result < 2 ^ 63 }
    {
        match &self.held {
            EntryStore::Own(map) => map.len(),
            EntryStore::Lent { dict, .. } => dict.len(),
        }
    }

    /// Returns whether there is no entry.
    pub fn is_empty(&self) -> bool
        ensures { result ≡ (length self.now == 0) }
    {
        self.len() == 0
    }

    /// Returns the entry at a key, if there is one.
    #[inline(always)]
    #[tactic(auto, using(crate::proofs::DictionaryKeys::lookup_found, crate::proofs::Lent::found_moved))]
    pub fn get(&self, key: &Key) -> Option<Entry>
        ensures { result ≡ entry_at key.now self.now }
    {
        match &self.held {
            EntryStore::Own(map) => map.get(key).copied(),
            EntryStore::Lent { dict, base } => match dict.get(key) {
                Some(pair) => Some(pair.shift(*base)),
                None => None,
            },
        }
    }

    /// Returns the entries in a list of their own.
    pub fn to_vec(&self, alloc: Global) -> Result<Vec<Entry>, Memory>
        ensures { IfOk result (λ v. v.items ≡ map (λ e. e.1) self.now) }
    {
        match &self.held {
            EntryStore::Own(map) => Ok(map.values().copied().collect(alloc)?),
            EntryStore::Lent { dict, base } => copied_pairs(alloc, dict, *base),
        }
    }

    /// Returns the key and the entry at a place in the order, if there is one.
    #[tactic(auto, using(crate::proofs::Lent::pair_there))]
    pub fn get_index(&self, i: usize) -> Option<(&'a Key, Entry)>
        ensures { option_map entry_seen result ≡ slice_get self.now i }
    {
        match &self.held {
            EntryStore::Own(map) => match map.get_index(i) {
                Some((key, entry)) => Some((key, *entry)),
                None => None,
            },
            EntryStore::Lent { dict, base } => match dict.get_index(i) {
                Some((key, pair)) => Some((key, pair.shift(*base))),
                None => None,
            },
        }
    }
}

/// An object as it is read.
#[derive(Drop)]
pub enum ObjectRef<'a> {
    Text(&'a Bytes),
    List { members: Members<'a>, frozen: bool },
    Tuple(Members<'a>),
    Dict { entries: Entries<'a>, frozen: bool },
    /// A function of a file: the file's label, and the name.
    Function(&'a Text, &'a Text),
}

/// Shows an object.
#[inline(always)]
pub fn show(object: &Object) -> ObjectRef<'_>
    ensures { seen_object result ≡ object_of object.now }
{
    match object {
        Object::Text(bytes) => ObjectRef::Text(bytes),
        Object::List { members, frozen } => ObjectRef::List {
            members: Members::new(members.as_slice()),
            frozen: *frozen,
        },
        Object::Numbers(numbers) => ObjectRef::List {
            members: Members {
                held: MemberStore::Numbers(numbers),
            },
            frozen: false,
        },
        Object::Tuple(members) => ObjectRef::Tuple(Members::new(members.as_slice())),
        Object::Dict { entries, frozen } => ObjectRef::Dict {
            entries: Entries::new(entries),
            frozen: *frozen,
        },
        Object::Function(label, name) => ObjectRef::Function(label, name),
    }
}

/// Shows a frozen object that is after `base` others.
#[inline(always)]
pub fn show_lent(object: &FrozenObject, base: u32) -> ObjectRef<'_>
    ensures { seen_object result ≡ moved base (frozen_obj object.now) }
{
    match object {
        FrozenObject::Text(bytes) => ObjectRef::Text(bytes),
        FrozenObject::List(members) => ObjectRef::List {
            members: Members::attached(members.as_slice(), base),
            frozen: true,
        },
        FrozenObject::Tuple(members) => ObjectRef::Tuple(Members::attached(
            members.as_slice(),
            base,
        )),
        FrozenObject::Dict(entries) => ObjectRef::Dict {
            entries: Entries::attached(entries, base),
            frozen: true,
        },
        FrozenObject::Function(label, name) => ObjectRef::Function(label, name),
    }
}
