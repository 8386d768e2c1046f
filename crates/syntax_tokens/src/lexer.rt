//! The tokens of a text.
ghost use Rattle.std.specs.Prelude.{◌≡◌, ◌+◌, ◌≤◌, ℕ, slice_index, IfNone};
ghost use Rattle.std.specs.Str.{IsAscii};
ghost use Rattle.syntax_tokens.specs.Lines.{scan, start};
ghost use Rattle.syntax_tokens.specs.Reading.{foreign, tokens_of, Reads};
ghost use Rattle.syntax_tokens.specs.View.{Scans};

use crate::nesting::too_deep;
use crate::piece::piece_at;
use crate::refusal::Refused;
use crate::scanner::{ScanError, Scanner};
use crate::token::Lexeme;
use std::alloc::Global;
use values_semantics::faults;

// Returns a byte that none of the text exceeds.
fn highest(text: &[u8]) -> u8
    ensures { (k : ℕ) → slice_index text.now k ≤ result }
{
    let mut most = 0;
    for b in text {
        most = most.max(*b);
    }
    most
}

/// Returns the line of the first byte over 127, if there is one. Most texts have none, which is found without counting
/// lines.
#[tactic(auto, using(crate::proofs::Foreign::is_ascii))]
fn first_non_ascii(text: &[u8]) -> Option<usize>
    ensures exact { result ≡ foreign 1 text.now }
    ensures ascii { IfNone result (IsAscii text.now) }
{
    if highest(text) < 128 {
        return None;
    }
    let mut line = 1;
    for b in text {
        if *b > 127 {
            return Some(line);
        }
        if *b == b'\n' {
            line += 1;
        }
    }
    None
}

// How many bytes a token and the space before it have on average, with which room is made for the tokens of a text.
const BYTES_A_TOKEN: usize = 4;

/// Reads the tokens of a text that is ASCII. Does not check their nesting.
fn scan(alloc: Global, text: &[u8]) -> Result<Vec<Lexeme<'_>>, ScanError>
    requires { IsAscii text.now }
    ensures { Scans (scan start 0 text.now) result }
{
    let mut scanner = Scanner::new(alloc, text.len() / BYTES_A_TOKEN)?;
    let mut left = text;
    'pieces: while !left.is_empty() {
        match piece_at(left) {
            Some(piece) => {
                if let Err(stop) = scanner.step(piece) {
                    return Err(stop);
                }
                let (_taken, rest) = left.split_at(piece.len);
                left = rest;
            }
            None => return Err(ScanError::Malformed),
        }
    }
    if let Err(stop) = scanner.end() {
        return Err(stop);
    }
    let Scanner {
        place: _,
        spaces: _,
        levels: _,
        brackets: _,
        line: _,
        out,
    } = scanner;
    Ok(out)
}

/// Reads the tokens of a text, with their lines. Names and strings are borrowed from the text. Returns the first fault
/// that applies. It is 2 if a byte is over 127, 3 if the tokens are malformed, and 12 if one is nested deeper than 64.
/// Returns `Memory` only if an allocation fails.
#[tactic(auto, unfolding(crate::specs::Reading::tokens_of))]
pub fn read_tokens(alloc: Global, text: &[u8]) -> Result<Vec<Lexeme<'_>>, Refused>
    ensures { Reads (tokens_of text.now) result }
{
    if let Some(line) = first_non_ascii(text) {
        return Err(Refused::Syntax {
            code: faults::NOT_ASCII,
            line,
        });
    }
    match scan(alloc, text) {
        Ok(found) => match too_deep(alloc, found.as_slice()) {
            Ok(true) => Err(Refused::Syntax {
                code: faults::TOO_DEEP,
                line: 0,
            }),
            Ok(false) => Ok(found),
            Err(error) => Err(Refused::from(error)),
        },
        Err(ScanError::Malformed) => Err(Refused::Syntax {
            code: faults::SYNTAX,
            line: 0,
        }),
        Err(ScanError::Memory(error)) => Err(Refused::Memory(error)),
    }
}
