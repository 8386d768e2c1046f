//! What a text begins and ends with.
ghost use Rattle.std.specs.Prelude.{◌≡◌, reverse};
ghost use Rattle.values_semantics.specs.Membership.{begins};
ghost use Rattle.values_semantics.specs.Methods.{ends, is_space, stripped, without_spaces};

/// Returns whether a text begins with another.
pub fn starts_with(part: &[u8], whole: &[u8]) -> bool
    ensures { result ≡ begins part.now whole.now }
{
    whole.starts_with(part)
}

/// Returns whether a text ends with another.
#[tactic(auto, using(crate::proofs::Endings::ends_same))]
pub fn ends_with(part: &[u8], whole: &[u8]) -> bool
    ensures { result ≡ ends part.now whole.now }
{
    whole.ends_with(part)
}

/// Returns a text without the spaces, tabs and ends of lines at its two ends.
pub fn strip(whole: &[u8]) -> &[u8]
    ensures { result.now ≡ stripped whole.now }
{
    without_last_spaces(without_first_spaces(whole))
}

// Returns whether a byte is a space, a tab, a line feed or a carriage return.
fn is_space(byte: u8) -> bool
    ensures { result ≡ is_space byte }
{
    byte == b' ' || byte == b'\t' || byte == b'\n' || byte == b'\r'
}

// Returns a text without the spaces that it begins with.
fn without_first_spaces(whole: &[u8]) -> &[u8]
    ensures { result.now ≡ without_spaces whole.now }
{
    let mut rest = whole;
    while let Some((byte, others)) = rest.split_first() {
        if !is_space(*byte) {
            return rest;
        }
        rest = others;
    }
    rest
}

// Returns a text without the spaces that it ends with.
fn without_last_spaces(whole: &[u8]) -> &[u8]
    ensures { result.now ≡ reverse (without_spaces (reverse whole.now)) }
{
    let mut rest = whole;
    while let Some((byte, others)) = rest.split_last() {
        if !is_space(*byte) {
            return rest;
        }
        rest = others;
    }
    rest
}
