//! The file of a node.

use base_types::Text;
use syntax::FileKind;

/// A .bzl file or a BUILD file: its kind, its label (the empty text for a BUILD file), its path and its package.
#[derive(Drop)]
pub struct Source {
    pub kind: FileKind,
    pub label: Text,
    pub path: Text,
    pub package_name: Text,
}
