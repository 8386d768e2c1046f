//! `*` inside a segment.
ghost use Rattle.std.specs.Prelude.{◌≡◌, false, MatchOption};
ghost use Rattle.pattern.specs.Wild.{some_end};
ghost use Rattle.pattern.specs.Patterns as patterns;
ghost use Rattle.pattern.specs.Pieces.{PieceFits, PieceFound};

// Takes the bytes of the pattern up to its first star, or its end, from the front of the name.
fn piece<'a>(pattern: &'a [u8], name: &'a [u8]) -> Option<(&'a [u8], &'a [u8])>
    ensures { MatchOption result (patterns.segment_matches pattern.now name.now ≡ false)
        (λ left. PieceFits patterns.is_star patterns.segment_matches pattern.now name.now left.0.now
        left.1.now) }
{
    let mut pattern = pattern;
    let mut name = name;
    while let Some((first, rest)) = pattern.split_first() {
        if *first == b'*' {
            break;
        }
        match name.split_first() {
            Some((byte, after)) if *first == *byte => {
                pattern = rest;
                name = after;
            }
            _ => return None,
        }
    }
    Some((pattern, name))
}

// Finds the first end of the name that begins with the piece, and takes the piece from it. The last piece has to end
// with the name.
fn search<'a>(pattern: &'a [u8], name: &'a [u8]) -> Option<(&'a [u8], &'a [u8])>
    ensures { MatchOption result (some_end (patterns.segment_matches pattern.now) name.now ≡ false)
        (λ left. PieceFound patterns.is_star patterns.segment_matches pattern.now name.now
        left.0.now left.1.now) }
{
    let mut name = name;
    loop {
        if let Some((rest, after)) = piece(pattern, name) {
            if !rest.is_empty() || after.is_empty() {
                return Some((rest, after));
            }
        }
        let (_, later) = name.split_first()?;
        name = later;
    }
}

fn bytes_match(pattern: &[u8], name: &[u8]) -> bool
    ensures { result ≡ patterns.segment_matches pattern.now name.now }
{
    let Some((mut pattern, mut name)) = piece(pattern, name) else {
        return false;
    };
    while let Some((_, rest)) = pattern.split_first() {
        match search(rest, name) {
            Some((next, after)) => {
                pattern = next;
                name = after;
            }
            None => return false,
        }
    }
    name.is_empty()
}

/// Returns whether one segment of a pattern matches a name: `*` matches zero or more bytes, a leading dot too, and any
/// other byte matches itself. It allocates nothing. The time is near to the product of the longest run between two
/// stars and the name.
pub fn segment_matches(segment: &str, name: &str) -> bool
    ensures { result ≡ patterns.segment_matches segment.now name.now }
{
    bytes_match(segment.as_bytes(), name.as_bytes())
}
