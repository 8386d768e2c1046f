//! The names of a directory that a pattern can match.
ghost use Rattle.std.specs.Prelude.{◌≡◌, ◌<◌, ◌≤◌, [], length, take, drop, true, false, not, bytes_eq, nat_eq, filter, Bool, MatchResult};
ghost use Rattle.std.specs.List.{before_first, starts_with};
ghost use Rattle.std.specs.Ordering.{is_lt, nat_cmp};
ghost use Rattle.std.specs.Cmp.Lexicographic.{slice_cmp};
ghost use Rattle.pattern.specs.Patterns.{is_star};
ghost use Rattle.pattern.specs.Starless.{is_starless};
ghost use Rattle.keys.specs.Ascending.{ascend};
ghost use Rattle.functions_directories.specs.Fronts.{AreBegun};
ghost use Rattle.functions_directories.specs.Globs as specs;

use crate::glob_pattern::split_pattern;
use base_types::Text;
use pattern::is_double_star;

// Returns whether a byte is not `*`.
fn is_no_star(byte: u8) -> bool
    ensures { result ≡ not (is_star byte) }
{
    byte != b'*'
}

// Returns whether a segment has no `*`. It then matches the name that is its text, and no other.
fn is_plain(segment: &str) -> bool
    ensures { result ≡ is_starless segment.now }
{
    segment.bytes().all(is_no_star)
}

// Returns where a name is among names in byte order, or where it would be, by halving them.
fn find_name(names: &[Text], name: &str) -> Result<usize, usize>
    requires { ascend names.now ≡ true }
    ensures { MatchResult result
        (λ at. (at < length names.now)
        × (take 1 (drop at names.now) ≡ filter (bytes_eq name.now) names.now))
        (λ _. [] ≡ filter (bytes_eq name.now) names.now) }
{
    names.binary_search_by(|other| other.as_str().cmp(name))
}

// Returns the part of names in byte order that is equal to a name: one of them, or none.
fn equal_names<'a>(names: &'a [Text], name: &str) -> &'a [Text]
    requires { ascend names.now ≡ true }
    ensures equal { result.now ≡ filter (bytes_eq name.now) names.now }
    ensures few { length result.now ≤ 1 }
{
    match find_name(names, name) {
        Ok(at) => &names[at..at + 1],
        Err(_) => &[],
    }
}

// Returns the bytes of a segment before its first `*`. Each name that the segment matches begins with them.
fn front_of(segment: &str) -> &str
    ensures { result.now ≡ before_first is_star segment.now }
{
    match segment.split_once('*') {
        Some((front, _)) => front,
        None => segment,
    }
}

// Returns whether a name is before a text in byte order.
fn is_before(name: &Text, text: &str) -> bool
    ensures { result ≡ is_lt (slice_cmp nat_cmp name.now text.now) }
{
    name.as_str().cmp(text).is_lt()
}

// Returns whether a name begins with a text.
fn begins_with(name: &Text, text: &str) -> bool
    ensures { result ≡ starts_with nat_eq name.now text.now }
{
    name.as_str().as_bytes().starts_with(text.as_bytes())
}

// Returns the part of names in byte order that begin with a text, by halving them twice.
fn names_with_front<'a>(names: &'a [Text], front: &str) -> &'a [Text]
    requires { ascend names.now ≡ true }
    ensures { result.now ≡ filter (λ name. starts_with nat_eq name front.now) names.now }
{
    let begin = names.partition_point(|name| is_before(name, front));
    let (_, later) = names.split_at(begin);
    let count = later.partition_point(|name| begins_with(name, front));
    later.split_at(count).0
}

/// Returns those of the names in a directory that a pattern has to look at. If the names are in byte order, each once,
/// they are found by halving: at most one if the first segment has no `*`, and otherwise those that begin with the
/// bytes before its first `*`. If they are not, or the first segment is `**`, these are all names.
pub fn possible_names<'a>(pattern: &str, names: &'a [Text], in_order: bool) -> &'a [Text]
    requires { in_order ≡ true → ascend names.now ≡ true }
    ensures own { specs.own_names pattern.now result.now ≡ specs.own_names pattern.now names.now }
    ensures asked { (directories : Bool) → specs.asked_names directories pattern.now result.now
        ≡ specs.asked_names directories pattern.now names.now }
    ensures few { in_order ≡ true → is_starless (specs.first_segment pattern.now) ≡ true
        → length result.now ≤ 1 }
    ensures begun { in_order ≡ true → specs.is_deep pattern.now ≡ false
        → AreBegun pattern.now result.now }
{
    if in_order {
        let (first, _) = split_pattern(pattern);
        if is_plain(first) {
            return equal_names(names, first);
        }
        if !is_double_star(first) {
            return names_with_front(names, front_of(first));
        }
    }
    names
}
