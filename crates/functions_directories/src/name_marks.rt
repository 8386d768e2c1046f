//! The names that a segment of a pattern can match by their marks.
ghost use Rattle.std.specs.Prelude.{◌≡◌, map, filter, IfOk, IfSome};
ghost use Rattle.keys.specs.NameLists.{AreMarks};
ghost use Rattle.keys.specs.Marks.{pair_marks};
ghost use Rattle.functions_directories.specs.Globs as specs;
ghost use Rattle.functions_directories.specs.SegmentMarks.{wanted_front, wanted_marks, is_marked};

use crate::glob_node::files_in;
use crate::glob_pattern::split_pattern;
use base_types::{Memory, Text};
use keys::{Value, pair_bit};
use pattern::is_double_star;
use std::alloc::Global;

// Returns the bit of a byte and the one after it, or no bit where there is none or one of them is a star.
fn wanted_front(first: u8, others: &[u8]) -> u64
    ensures { result ≡ wanted_front first others.now }
{
    match others.first() {
        Some(second) => {
            if first == b'*' || *second == b'*' {
                0
            } else {
                pair_bit(first, *second)
            }
        }
        None => 0,
    }
}

// Returns the bits of all pairs of bytes, one after the other, of which neither is a star. Each name that the segment
// matches has them.
fn wanted_marks(segment: &str) -> u64
    ensures { result ≡ wanted_marks segment.now }
{
    let mut marks = 0;
    let mut rest = segment.as_bytes();
    while let Some((first, others)) = rest.split_first() {
        marks |= wanted_front(*first, others);
        rest = others;
    }
    marks
}

// Returns the names whose marks have the bits that the first segment of a pattern asks for, shared.
fn marked_names(
    alloc: Global,
    pattern: &str,
    names: &[Text],
    marks: &[u64],
) -> Result<Vec<Text>, Memory>
    requires { marks.now ≡ map pair_marks names.now }
    ensures { IfOk result (λ v. v.items ≡ filter (is_marked pattern.now) names.now) }
{
    let wanted = wanted_marks(split_pattern(pattern).0);
    let mut all = Vec::new(alloc);
    for (i, name) in names.iter().enumerate() {
        if i < marks.len() && marks[i] & wanted == wanted {
            all.push(name.share()?)?;
        }
    }
    Ok(all)
}

// Returns the marks of the files in a listing, or none where the files are few.
fn marks_in(listing: &Value) -> &[u64]
    ensures { AreMarks (specs.files_in listing.now) result.now }
{
    match listing {
        Value::Listing(Some(names)) => names.marks(),
        _ => &[],
    }
}

// Returns whether a segment begins with a star.
fn begins_with_star(segment: &str) -> bool {
    match segment.as_bytes().first() {
        Some(first) => *first == b'*',
        None => false,
    }
}

/// Returns the names of the files in a listing that a pattern can match by their marks, or nothing where the files are
/// few, or the first segment is `**` or does not begin with a star.
#[tactic(auto, using(crate::proofs::MarkedNames::marked_own))]
pub fn marked_files(
    alloc: Global,
    pattern: &str,
    listing: &Value,
) -> Result<Option<Vec<Text>>, Memory>
    ensures { IfOk result
        (λ found. IfSome found
        (λ v. specs.own_names pattern.now v.items ≡ specs.own_names pattern.now
        (specs.files_in listing.now))) }
{
    let marks = marks_in(listing);
    let (first, _) = split_pattern(pattern);
    if marks.is_empty() || !begins_with_star(first) || is_double_star(first) {
        return Ok(None);
    }
    let found = marked_names(alloc, pattern, files_in(listing), marks)?;
    Ok(Some(found))
}
