//! Universal names.
ghost use Rattle.std.specs.Prelude.{◌≡◌};
ghost use Rattle.values_semantics.specs.Builtins.{plain_functions, package_functions};
ghost use Rattle.evaluator_semantics.specs.Names.{first_named, universal, is_native};

use crate::places::same_bytes;
use base_types::Text;
use syntax_grammar::FileKind;
use values_semantics::{Builtin, PACKAGE, PLAIN};

// Returns the first of these functions that has a name.
fn first_named(x: &Text, functions: &[Builtin]) -> Option<Builtin>
    ensures { result ≡ first_named x.now functions.now }
{
    let name = x.as_str().as_bytes();
    for f in functions.iter() {
        if same_bytes(name, f.name().as_bytes()) {
            return Some(*f);
        }
    }
    None
}

/// Returns the function with a name that every file has.
pub fn plain_function(x: &Text) -> Option<Builtin>
    ensures { result ≡ first_named x.now plain_functions }
{
    first_named(x, &PLAIN)
}

/// Returns the package call with a name.
pub fn package_function(x: &Text) -> Option<Builtin>
    ensures { result ≡ first_named x.now package_functions }
{
    first_named(x, &PACKAGE)
}

/// Returns the function that has a name in all files of a kind.
pub fn universal(kind: FileKind, x: &Text) -> Option<Builtin>
    ensures { result ≡ universal kind x.now }
{
    match kind {
        FileKind::Build => match plain_function(x) {
            Some(f) => Some(f),
            None => package_function(x),
        },
        FileKind::Bzl => plain_function(x),
    }
}

/// Returns whether a name is `native`, which .bzl files have before a dot.
pub fn is_native(kind: FileKind, x: &Text) -> bool
    ensures { result ≡ is_native kind x.now }
{
    match kind {
        FileKind::Build => false,
        FileKind::Bzl => x.as_str().as_bytes() == b"native".as_slice(),
    }
}
