//! The walk that prints a value.
ghost use Rattle.values_semantics.specs.Builtins.{builtin_name};
ghost use Rattle.std.specs.Prelude.{◌≡◌, ◌++◌, map, slice_get, codes, OnOk};
ghost use Rattle.values_semantics.specs.Printing.{print, inner_print, visit_shown, print_shape, listed, tupled, mapped, separated, container, plain, int_text, entry_text, pair_text, tuple_end, quoted};
ghost use Rattle.values_objects.specs.Standings.{object_in};
ghost use Rattle.values_builtins.specs.TextBuffers.{text_so_far, more, before, Tells};

use crate::quoting::write_quoted;
use crate::text_buffer::TextBuffer;
use base_types::Memory;
use itoa::Buffer;
use values_heap::{Builtin, Entries, Entry, Halt, Members, ObjectRef, Objects, Val, tick};
use values_semantics::faults;

// What stands before the members of a container, and what stands after them.
#[derive(Drop)]
struct Brackets {
    before: &'static [u8],
    after: &'static [u8],
}

/// Writes the text of a value, or returns fault 11 or 12, or 5. Each value visited is a step, and `left` more
/// containers may be entered.
#[cycle(printing)]
#[tactic(auto, using(crate::proofs::PrintLaws::print_is, crate::proofs::PrintLaws::print_plainly))]
pub fn print(
    objects: &Objects,
    steps: &mut u64,
    x: Val,
    left: u32,
    out: &mut TextBuffer,
) -> Result<(), Halt>
    ensures { Tells (print left (map object_in objects.now) x) steps.old (text_so_far out.old)
        result steps.new (text_so_far out.new) }
{
    match x {
        Val::Nothing => print_plain(steps, b"None", out)?,
        Val::True => print_plain(steps, b"True", out)?,
        Val::False => print_plain(steps, b"False", out)?,
        Val::Int(n) => print_int(steps, n, out)?,
        Val::Builtin(n) => print_builtin(steps, Builtin::at_number(n), out)?,
        Val::At(place) => print_object(objects, steps, place, left, out)?,
    }
    Ok(())
}

// Writes a text that needs no further walk.
fn print_plain(steps: &mut u64, text: &[u8], out: &mut TextBuffer) -> Result<(), Halt>
    ensures { Tells (plain text.now) steps.old (text_so_far out.old) result steps.new (text_so_far
        out.new) }
{
    tick(steps)?;
    out.write(text)?;
    Ok(())
}

// Writes a number.
#[tactic(auto, unfolding(values_semantics::specs::Printing::int_text))]
fn print_int(steps: &mut u64, n: i64, out: &mut TextBuffer) -> Result<(), Halt>
    ensures { Tells (plain (int_text n)) steps.old (text_so_far out.old) result steps.new
        (text_so_far out.new) }
{
    let mut buffer = Buffer::new();
    print_plain(steps, buffer.format(n).as_bytes(), out)?;
    Ok(())
}

// Writes a built-in function.
fn print_builtin(steps: &mut u64, f: Builtin, out: &mut TextBuffer) -> Result<(), Halt>
    ensures { Tells (plain (codes "<built-in " ++ builtin_name f ++ codes ">")) steps.old
        (text_so_far out.old) result steps.new (text_so_far out.new) }
{
    tick(steps)?;
    out.write(b"<built-in ")?;
    out.write(f.name().as_bytes())?;
    out.write(b">")?;
    Ok(())
}

// Writes a function of a file.
fn print_function(steps: &mut u64, name: &[u8], out: &mut TextBuffer) -> Result<(), Halt>
    ensures { Tells (plain (codes "<function " ++ name.now ++ codes ">")) steps.old (text_so_far
        out.old) result steps.new (text_so_far out.new) }
{
    tick(steps)?;
    out.write(b"<function ")?;
    out.write(name)?;
    out.write(b">")?;
    Ok(())
}

// Writes a string.
fn print_text(steps: &mut u64, bytes: &[u8], out: &mut TextBuffer) -> Result<(), Halt>
    ensures { Tells (plain (quoted bytes.now)) steps.old (text_so_far out.old) result steps.new
        (text_so_far out.new) }
{
    tick(steps)?;
    write_quoted(out, bytes)?;
    Ok(())
}

// Writes an object.
#[cycle(printing)]
fn print_object(
    objects: &Objects,
    steps: &mut u64,
    place: usize,
    left: u32,
    out: &mut TextBuffer,
) -> Result<(), Halt>
    ensures { Tells (visit_shown (inner_print left (map object_in objects.now))
        (print_shape (slice_get (map object_in objects.now) place))) steps.old (text_so_far out.old)
        result steps.new (text_so_far out.new) }
{
    match objects.object_ref(place)? {
        Some(ObjectRef::Text(bytes)) => print_text(steps, bytes.as_slice(), out)?,
        Some(ObjectRef::List { members, .. }) => print_list(objects, steps, &members, left, out)?,
        Some(ObjectRef::Tuple(members)) => print_tuple(objects, steps, &members, left, out)?,
        Some(ObjectRef::Dict { entries, .. }) => print_dict(objects, steps, &entries, left, out)?,
        Some(ObjectRef::Function(_, name)) => {
            print_function(steps, name.as_str().as_bytes(), out)?;
        }
        None => {
            tick(steps)?;
            return Err(Halt::Code(faults::WRONG_TYPE));
        }
    }
    Ok(())
}

// Writes a list.
#[cycle(printing)]
#[tactic(auto, using(crate::proofs::PrintLaws::list_deep, crate::proofs::PrintLaws::list_more))]
fn print_list(
    objects: &Objects,
    steps: &mut u64,
    members: &Members<'_>,
    left: u32,
    out: &mut TextBuffer,
) -> Result<(), Halt>
    ensures { Tells (visit_shown (inner_print left (map object_in objects.now))
        (listed members.now)) steps.old (text_so_far out.old) result steps.new (text_so_far
        out.new) }
{
    if left == 0 {
        return Err(Halt::Code(faults::TOO_DEEP));
    }
    let brackets = Brackets {
        before: b"[",
        after: b"]",
    };
    print_enclosed(objects, steps, brackets, members, left - 1, out)?;
    Ok(())
}

// Writes a tuple.
#[cycle(printing)]
#[tactic(auto, using(crate::proofs::PrintLaws::tuple_deep, crate::proofs::PrintLaws::tuple_more))]
fn print_tuple(
    objects: &Objects,
    steps: &mut u64,
    members: &Members<'_>,
    left: u32,
    out: &mut TextBuffer,
) -> Result<(), Halt>
    ensures { Tells (visit_shown (inner_print left (map object_in objects.now))
        (tupled members.now)) steps.old (text_so_far out.old) result steps.new (text_so_far
        out.new) }
{
    if left == 0 {
        return Err(Halt::Code(faults::TOO_DEEP));
    }
    let brackets = Brackets {
        before: b"(",
        after: tuple_end(members),
    };
    print_enclosed(objects, steps, brackets, members, left - 1, out)?;
    Ok(())
}

// Returns the end of a tuple. If it has one member, a comma comes first.
fn tuple_end(members: &Members<'_>) -> &'static [u8]
    ensures { result.now ≡ tuple_end members.now }
{
    if members.len() == 1 { b",)" } else { b")" }
}

// Writes members between brackets.
#[cycle(printing)]
#[tactic(auto, using(crate::proofs::TextBufferLaws::contained))]
fn print_enclosed(
    objects: &Objects,
    steps: &mut u64,
    brackets: Brackets,
    members: &Members<'_>,
    left: u32,
    out: &mut TextBuffer,
) -> Result<(), Halt>
    ensures { Tells
        (container
        brackets.before.now (separated (print left (map object_in objects.now)) members.now)
        brackets.after.now) steps.old (text_so_far out.old) result steps.new (text_so_far out.new) }
{
    tick(steps)?;
    out.write(brackets.before)?;
    print_members(objects, steps, members, left, out)?;
    out.write(brackets.after)?;
    Ok(())
}

// Writes members with a comma and a space between them.
#[cycle(printing)]
fn print_members(
    objects: &Objects,
    steps: &mut u64,
    members: &Members<'_>,
    left: u32,
    out: &mut TextBuffer,
) -> Result<(), Halt>
    ensures { Tells (separated (print left (map object_in objects.now)) members.now) steps.old
        (text_so_far out.old) result steps.new (text_so_far out.new) }
{
    for i in 0..members.len() {
        let Some(x) = members.get(i) else {
            return Ok(());
        };
        write_before(out, i)?;
        match print(objects, steps, x, left, out) {
            Ok(()) => {}
            Err(halt) => return Err(halt),
        }
    }
    Ok(())
}

// Writes a comma and a space, but not before the first item.
fn write_before(out: &mut TextBuffer, i: usize) -> Result<(), Memory>
    ensures { OnOk result (text_so_far out.new ≡ more (text_so_far out.old) (before i)) }
{
    if i == 0 {
        out.write(b"")?;
    } else {
        out.write(b", ")?;
    }
    Ok(())
}

// Writes a dictionary.
#[cycle(printing)]
#[tactic(auto, using(crate::proofs::PrintLaws::dict_deep, crate::proofs::PrintLaws::dict_more))]
fn print_dict(
    objects: &Objects,
    steps: &mut u64,
    entries: &Entries<'_>,
    left: u32,
    out: &mut TextBuffer,
) -> Result<(), Halt>
    ensures { Tells (visit_shown (inner_print left (map object_in objects.now))
        (mapped entries.now)) steps.old (text_so_far out.old) result steps.new (text_so_far
        out.new) }
{
    if left == 0 {
        return Err(Halt::Code(faults::TOO_DEEP));
    }
    print_braced(objects, steps, entries, left - 1, out)?;
    Ok(())
}

// Writes entries between braces.
#[cycle(printing)]
#[tactic(auto, using(crate::proofs::TextBufferLaws::contained))]
fn print_braced(
    objects: &Objects,
    steps: &mut u64,
    entries: &Entries<'_>,
    left: u32,
    out: &mut TextBuffer,
) -> Result<(), Halt>
    ensures { Tells
        (container
        (codes "{") (separated (pair_text (print left (map object_in objects.now)))
        entries.now) (codes "}")) steps.old (text_so_far out.old) result steps.new (text_so_far
        out.new) }
{
    tick(steps)?;
    out.write(b"{")?;
    print_entries(objects, steps, entries, left, out)?;
    out.write(b"}")?;
    Ok(())
}

// Writes entries with a comma and a space between them.
#[cycle(printing)]
fn print_entries(
    objects: &Objects,
    steps: &mut u64,
    entries: &Entries<'_>,
    left: u32,
    out: &mut TextBuffer,
) -> Result<(), Halt>
    ensures { Tells (separated (pair_text (print left (map object_in objects.now)))
        entries.now) steps.old (text_so_far out.old) result steps.new (text_so_far out.new) }
{
    for i in 0..entries.len() {
        let Some((_key, entry)) = entries.get_index(i) else {
            return Ok(());
        };
        write_before(out, i)?;
        match print_entry(objects, steps, entry, left, out) {
            Ok(()) => {}
            Err(halt) => return Err(halt),
        }
    }
    Ok(())
}

// Writes a key and its value.
#[cycle(printing)]
fn print_entry(
    objects: &Objects,
    steps: &mut u64,
    entry: Entry,
    left: u32,
    out: &mut TextBuffer,
) -> Result<(), Halt>
    ensures { Tells (entry_text (print left (map object_in objects.now)) entry) steps.old
        (text_so_far out.old) result steps.new (text_so_far out.new) }
{
    print(objects, steps, entry.key, left, out)?;
    out.write(b": ")?;
    print(objects, steps, entry.value, left, out)?;
    Ok(())
}
