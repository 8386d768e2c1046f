//! The names in a directory.
use base_types::Text;

/// The names in a directory: of the files in it, and of its subdirectories, each in byte order.
#[derive(Drop)]
pub struct Listing {
    /// The names of the files.
    pub files: Vec<Text>,
    /// The names of the subdirectories.
    pub directories: Vec<Text>,
}
