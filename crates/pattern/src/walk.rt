//! `**` between segments.
ghost use Rattle.std.specs.Prelude.{◌≡◌, ◌∷◌, [], false, MatchOption};
ghost use Rattle.pattern.specs.Wild.{some_end};
ghost use Rattle.pattern.specs.Patterns as patterns;
ghost use Rattle.pattern.specs.Parts.{parts};
ghost use Rattle.pattern.specs.Pieces.{PieceFits, PieceFound};

use crate::segment::segment_matches;

// Returns the first segment of a text and the rest, if there is a rest. Returns `None` if there is no text.
fn split_segment<'a>(text: Option<&'a str>) -> Option<(&'a str, Option<&'a str>)>
    ensures { MatchOption result (parts text.entry ≡ [])
        (λ x. parts text.entry ≡ x.0.now ∷ parts x.1) }
{
    let text = text?;
    match text.split_once('/') {
        Some((first, rest)) => Some((first, Some(rest))),
        None => Some((text, None)),
    }
}

// Takes the segments of the pattern up to its first `**`, or its end, from the front of the path.
fn piece<'a>(
    pattern: Option<&'a str>,
    path: Option<&'a str>,
) -> Option<(Option<&'a str>, Option<&'a str>)>
    ensures { MatchOption result (patterns.path_matches (parts pattern.entry) (parts path.entry)
        ≡ false) (λ left. PieceFits patterns.is_double_star patterns.path_matches
        (parts pattern.entry) (parts path.entry) (parts left.0) (parts left.1)) }
{
    let mut pattern = pattern;
    let mut path = path;
    while let Some((first, rest)) = split_segment(pattern) {
        if first == "**" {
            break;
        }
        let (name, after) = split_segment(path)?;
        if !segment_matches(first, name) {
            return None;
        }
        pattern = rest;
        path = after;
    }
    Some((pattern, path))
}

// Takes a piece as `piece` does; the last piece has to end with the path.
fn whole_piece<'a>(
    pattern: Option<&'a str>,
    path: Option<&'a str>,
) -> Option<(Option<&'a str>, Option<&'a str>)>
    ensures { MatchOption result (patterns.path_matches (parts pattern.entry) (parts path.entry)
        ≡ false) (λ left. PieceFound patterns.is_double_star patterns.path_matches
        (parts pattern.entry) (parts path.entry) (parts left.0) (parts left.1)) }
{
    let (rest, after) = piece(pattern, path)?;
    match rest {
        Some(_) => Some((rest, after)),
        None => match after {
            Some(_) => None,
            None => Some((rest, after)),
        },
    }
}

// Finds the first end of the path that begins with the piece, and takes the piece from it. The last piece has to end
// with the path.
fn search<'a>(
    pattern: Option<&'a str>,
    path: Option<&'a str>,
) -> Option<(Option<&'a str>, Option<&'a str>)>
    ensures { MatchOption result (some_end (patterns.path_matches (parts pattern.entry))
        (parts path.entry) ≡ false)
        (λ left. PieceFound patterns.is_double_star patterns.path_matches (parts pattern.entry)
        (parts path.entry) (parts left.0) (parts left.1)) }
{
    let mut path = path;
    loop {
        if let Some((rest, after)) = whole_piece(pattern, path) {
            return Some((rest, after));
        }
        let (_, later) = split_segment(path)?;
        path = later;
    }
}

// Returns whether the segments of the pattern match those of the path.
pub(crate) fn segments_match(pattern: Option<&str>, path: Option<&str>) -> bool
    ensures { result ≡ patterns.path_matches (parts pattern.entry) (parts path.entry) }
{
    let Some((mut pattern, mut path)) = piece(pattern, path) else {
        return false;
    };
    while let Some((_, rest)) = split_segment(pattern) {
        match search(rest, path) {
            Some((next, after)) => {
                pattern = next;
                path = after;
            }
            None => return false,
        }
    }
    path.is_none()
}
