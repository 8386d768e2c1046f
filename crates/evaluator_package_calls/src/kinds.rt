//! The arguments of package calls, and how the calls end.

use crate::answers::Answers;
use base_types::Text;
use syntax_grammar::FileKind;
use values_heap::Val;

/// What package calls get: the kind of the file that is evaluated, the package's name, and the globs that are answered.
#[derive(Drop)]
pub struct Package {
    pub kind: FileKind,
    pub name: Text,
    pub answers: Answers,
}

/// The result of a package call: a value, or the questions whose answers it needs, as in `GlobResult`, in order and
/// each once.
#[derive(Drop)]
pub enum CallResult {
    Value(Val),
    Need(Vec<Text>),
}
