//! Paths, labels and patterns, by their bytes.
ghost use Rattle.std.specs.Prelude.{◌≡◌, if◌then◌else◌};
ghost use Rattle.labels.specs.Paths as paths;
ghost use Rattle.pattern.specs.Patterns.{is_pattern};
ghost use Rattle.values_semantics.specs.Outcome.{good, bad};
ghost use Rattle.evaluator_semantics.specs.Rules.{label_in};
ghost use Rattle.values_heap.specs.View.{Checks};

use base_types::Text;
use labels::{BadLabel, label_text};
use pattern::{BadPattern, Pattern};
use std::alloc::Global;
use values_heap::{Bytes, Halt};
use values_semantics::faults;

/// Returns whether bytes are a path.
pub fn is_path(bytes: &[u8]) -> bool
    ensures { result ≡ paths.is_path bytes.now }
{
    match std::str::from_utf8(bytes) {
        Ok(text) => labels::is_path(text),
        Err(_) => false,
    }
}

/// Returns the text of a label that is read in a package, or fault 15.
#[tactic(auto, using(crate::proofs::LabelTexts::spelled, crate::proofs::LabelTexts::misspelled))]
pub fn label_in(alloc: Global, package_name: &Text, bytes: &[u8]) -> Result<Bytes, Halt>
    ensures { Checks (label_in package_name.now bytes.now) result }
{
    let Ok(text) = std::str::from_utf8(bytes) else {
        return Err(Halt::Code(faults::BAD_LABEL));
    };
    match label_text(alloc, text, package_name.as_str()) {
        Ok(text) => Ok(Bytes::of_text(text)),
        Err(BadLabel::Code15) => Err(Halt::Code(faults::BAD_LABEL)),
        Err(BadLabel::Memory(error)) => Err(Halt::Memory(error)),
    }
}

/// Reads a pattern, or returns fault 21.
pub fn pattern_of(alloc: Global, bytes: &[u8]) -> Result<Pattern, Halt>
    ensures { Checks (if is_pattern bytes.now then good bytes.now else bad 21) result }
{
    let Ok(text) = std::str::from_utf8(bytes) else {
        return Err(Halt::Code(faults::BAD_PATTERN));
    };
    match Pattern::read(alloc, text) {
        Ok(pattern) => Ok(pattern),
        Err(BadPattern::Code21) => Err(Halt::Code(faults::BAD_PATTERN)),
        Err(BadPattern::Memory(error)) => Err(Halt::Memory(error)),
    }
}
