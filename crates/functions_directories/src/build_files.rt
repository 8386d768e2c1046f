//! The BUILD files of a package.
ghost use Rattle.std.specs.Prelude.{◌≡◌, ◌≤◌, length, IfOk};
ghost use Rattle.std.specs.String.{string_bytes};
ghost use Rattle.functions_directories.specs.Lookups as specs;

use base_types::{Memory, Text};
use keys::BuildName;
use std::alloc::Global;

// The most bytes of a path.
const PATH_LIMIT: usize = 255;

static BOTH: [BuildName; 2] = [BuildName::BuildBazel, BuildName::Build];

static SHORTER: [BuildName; 1] = [BuildName::Build];

// Returns the name of the file.
fn file_name(name: BuildName) -> &'static str
    ensures name { result.now ≡ specs.file_name name }
    ensures short { length result.now ≤ 11 }
{
    match name {
        BuildName::BuildBazel => "BUILD.bazel",
        BuildName::Build => "BUILD",
    }
}

/// Returns the path of this BUILD file of a package.
pub fn build_path(alloc: Global, directory: &Text, name: BuildName) -> Result<String, Memory>
    ensures { IfOk result (λ p. string_bytes p ≡ specs.build_path directory.now name) }
{
    let mut path = String::from_str(alloc, directory.as_str())?;
    if !path.is_empty() {
        path.push_str("/")?;
    }
    path.push_str(file_name(name))?;
    Ok(path)
}

// Returns whether the path of this BUILD file is short enough to be a path.
fn is_short(directory: &Text, name: BuildName) -> bool
    ensures { result ≡ specs.is_short directory.now name }
{
    let directory = directory.as_str();
    let own = file_name(name).len();
    if directory.is_empty() {
        own <= PATH_LIMIT
    } else {
        directory.len() <= PATH_LIMIT - 1 - own
    }
}

/// Returns the files that a look-up asks for, of which the one that wins is first.
pub fn candidates(directory: &Text) -> &'static [BuildName]
    ensures { result.now ≡ specs.candidates directory.now }
{
    if is_short(directory, BuildName::BuildBazel) {
        &BOTH
    } else if is_short(directory, BuildName::Build) {
        &SHORTER
    } else {
        &[]
    }
}
