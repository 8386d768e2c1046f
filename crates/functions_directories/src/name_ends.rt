//! The ends of the names that a segment of a pattern matches.
ghost use Rattle.std.specs.Prelude.{◌≡◌};
ghost use Rattle.pattern.specs.Patterns as patterns;
ghost use Rattle.functions_directories.specs.Ends as specs;

use pattern::segment_matches;

/// Returns the bytes of a segment after its last `*`, or all its bytes if it has none. Each name that the segment
/// matches ends with them.
pub fn end_of(segment: &str) -> &[u8]
    ensures { result.now ≡ specs.end_of segment.now }
{
    let mut end = segment.as_bytes();
    let mut rest = end;
    while let Some((first, others)) = rest.split_first() {
        if *first == b'*' {
            end = others;
        }
        rest = others;
    }
    end
}

/// Returns whether a segment matches a name, where the end of the segment is known. Most names end otherwise, and are
/// left after a few bytes.
#[inline(always)]
#[tactic(auto, using(crate::proofs::NameEnds::other_end))]
pub fn matches_with_end(segment: &str, end: &[u8], name: &str) -> bool
    requires { end.now ≡ specs.end_of segment.now }
    ensures { result ≡ patterns.segment_matches segment.now name.now }
{
    name.as_bytes().ends_with(end) && segment_matches(segment, name)
}
