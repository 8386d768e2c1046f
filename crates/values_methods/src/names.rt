//! Names of methods, and numbers of arguments.
ghost use Rattle.std.specs.Prelude.{◌≡◌};
ghost use Rattle.values_semantics.specs.Comparing.{same_text};
ghost use Rattle.values_methods.specs.Cases.{without_arguments};
ghost use Rattle.values_heap.specs.View.{Checks};

use values_heap::{Halt, Val};
use values_semantics::faults;

/// Returns whether two names are the same.
pub fn is_name(name: &str, other: &str) -> bool
    ensures { result ≡ same_text name.now other.now }
{
    name == other
}

/// Returns fault 25 if there are arguments.
pub fn no_arguments(xs: &[Val]) -> Result<(), Halt>
    ensures { Checks (without_arguments xs.now) result }
{
    if xs.is_empty() {
        Ok(())
    } else {
        Err(Halt::Code(faults::WRONG_ARGUMENTS))
    }
}
