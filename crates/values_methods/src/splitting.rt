//! Texts that are split, and parts that are replaced.
ghost use Rattle.std.specs.Prelude.{◌≡◌, ◌<◌, [], ◌∷◌, ◌++◌, length, map, drop, IfOk, OnOk};
ghost use Rattle.memchr.specs.Find.{FindsNeedle};
ghost use Rattle.values_semantics.specs.Membership.{begins};
ghost use Rattle.values_semantics.specs.Methods.{split_by, with_between};
ghost use Rattle.values_objects.specs.ListSizes.{SizedAs};
ghost use Rattle.values_methods.specs.Texts.{Grows, shown, exchanged, replaced};

use crate::spaces::starts_with;
use base_types::Memory;
use memchr::memmem::Finder;
use std::alloc::Global;
use values_heap::{Halt, MAX_LENGTH};
use values_semantics::faults;

// How many places are tried one by one before a search is begun.
const NEAR: usize = 16;

/// Returns the parts of a text between separators, found from the left and not overlapping.
pub fn split_parts<'a>(
    alloc: Global,
    whole: &'a [u8],
    separator: &[u8],
) -> Result<Vec<&'a [u8]>, Memory>
    requires { 0 < length separator.now }
    ensures { IfOk result (λ v. shown v.items ≡ split_by separator.now whole.now) }
{
    let finder = Finder::new(separator);
    let mut all = Vec::new(alloc);
    let mut rest = whole;
    while let Some(at) = finder.find(rest) {
        let (part, others) = rest.split_at(at);
        all.push(part)?;
        rest = &others[separator.len()..];
    }
    all.push(rest)?;
    Ok(all)
}

/// Returns a text with each occurrence of `old` replaced, found from the left and not overlapping, or fault 13.
pub fn replace_parts(alloc: Global, whole: &[u8], old: &[u8], new: &[u8]) -> Result<Vec<u8>, Halt>
    requires { 0 < length old.now }
    ensures { SizedAs (with_between new.now (split_by old.now whole.now)) result }
{
    match (old, new) {
        ([from], [to]) => exchange_bytes(alloc, whole, *from, *to),
        ([from], _) => replace_bytes(alloc, whole, *from, new),
        _ => replace_slices(alloc, whole, old, new),
    }
}

// Returns a text with each byte `old` replaced by another one, or fault 13.
fn exchange_bytes(alloc: Global, whole: &[u8], old: u8, new: u8) -> Result<Vec<u8>, Halt>
    ensures { SizedAs (with_between (new ∷ []) (split_by (old ∷ []) whole.now)) result }
{
    if whole.len() > MAX_LENGTH {
        return Err(Halt::Code(faults::TOO_LARGE));
    }
    let mut all = Vec::from_slice(alloc, whole)?;
    exchange_each(&mut all, old, new);
    Ok(all)
}

// Puts `new` in the place of each byte `old`.
fn exchange_each(bytes: &mut Vec<u8>, old: u8, new: u8)
    ensures { bytes.new.items ≡ map (exchanged old new) bytes.old.items }
{
    for byte in bytes.iter_mut() {
        *byte = exchanged(*byte, old, new);
    }
}

// Returns `new` for the byte `old`, and another byte as it is.
#[inline(always)]
fn exchanged(byte: u8, old: u8, new: u8) -> u8
    ensures { result ≡ exchanged old new byte }
{
    if byte == old { new } else { byte }
}

// Returns a text with each byte `old` replaced by a text, or fault 13. What is between two of them is added at once.
fn replace_bytes(alloc: Global, whole: &[u8], old: u8, new: &[u8]) -> Result<Vec<u8>, Halt>
    ensures { SizedAs (with_between new.now (split_by (old ∷ []) whole.now)) result }
{
    let mut all = Vec::new(alloc);
    let mut from = 0;
    for i in 0..whole.len() {
        if whole[i] == old {
            push_part(&mut all, &whole[from..i], new)?;
            from = i + 1;
        }
    }
    push_part(&mut all, &whole[from..], b"")?;
    Ok(all)
}

// Returns a text with each occurrence of `old` replaced, or fault 13.
fn replace_slices(alloc: Global, whole: &[u8], old: &[u8], new: &[u8]) -> Result<Vec<u8>, Halt>
    requires { 0 < length old.now }
    ensures { SizedAs (with_between new.now (split_by old.now whole.now)) result }
{
    let finder = Finder::new(old);
    let mut all = Vec::new(alloc);
    let mut rest = whole;
    while let Some(place) = next_place(&finder, old, rest) {
        let (part, others) = rest.split_at(place);
        push_part(&mut all, part, new)?;
        rest = &others[old.len()..];
    }
    push_part(&mut all, rest, b"")?;
    Ok(all)
}

// Returns the place of the first `old`. The nearest places are tried one by one, since a search takes as long as some
// ten of these.
#[inline(always)]
fn next_place(finder: &Finder<'_>, old: &[u8], rest: &[u8]) -> Option<usize>
    requires same { finder.now ≡ old.now }
    requires some { 0 < length old.now }
    ensures { FindsNeedle rest.now old.now 0 result }
{
    let near = NEAR.min(rest.len());
    for at in 0..near {
        if is_at(old, rest, at) {
            return Some(at);
        }
    }
    match finder.find(&rest[near..]) {
        Some(place) => Some(near + place),
        None => None,
    }
}

// Returns whether a text of one byte or more is at a place.
#[inline(always)]
fn is_at(old: &[u8], rest: &[u8], at: usize) -> bool
    requires place { at < length rest.now }
    requires some { 0 < length old.now }
    ensures { result ≡ begins old.now (drop at rest.now) }
{
    rest[at] == old[0] && starts_with(old, &rest[at..])
}

// Adds two texts at the end, or returns fault 13.
#[inline(always)]
pub(crate) fn push_part(all: &mut Vec<u8>, separator: &[u8], part: &[u8]) -> Result<(), Halt>
    ensures { Grows all.old.items (separator.now ++ part.now) result all.new.items }
{
    if all.len() > MAX_LENGTH || separator.len() > MAX_LENGTH - all.len() {
        return Err(Halt::Code(faults::TOO_LARGE));
    }
    if part.len() > MAX_LENGTH - all.len() - separator.len() {
        return Err(Halt::Code(faults::TOO_LARGE));
    }
    if !separator.is_empty() {
        push_text(all, separator)?;
    }
    if !part.is_empty() {
        push_text(all, part)?;
    }
    Ok(())
}

// Adds a text at the end. Many are of one byte, and take no copying of a slice.
#[inline(always)]
fn push_text(all: &mut Vec<u8>, text: &[u8]) -> Result<(), Memory>
    ensures { OnOk result (all.new.items ≡ all.old.items ++ text.now) }
{
    match text {
        [byte] => Ok(all.push(*byte)?),
        _ => Ok(all.extend_from_slice(text)?),
    }
}
