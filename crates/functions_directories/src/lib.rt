//! The node functions that go by directories: look-ups of BUILD files, globs, and the names of packages.
//!
//! * `Lookup(package)` asks one group, the files `BUILD.bazel` and `BUILD` of the package, but none whose path has more
//!   than 255 bytes, and ends with the first that is there. With no path short enough it ends at once.
//! * `Glob(directory pattern)` asks the listing of the directory, then the look-ups of the subdirectories that the
//!   pattern goes into, and then the globs below: with a pattern that begins with `**` that of the other segments in
//!   the same directory, and one in each of the subdirectories that are no packages. It ends with the paths that are
//!   found, from the directory on, in byte order.
//! * `Glob(directory pattern dirs)` finds directories too, those that are no packages. It also asks the look-ups of the
//!   subdirectories that the pattern would find, and its globs below end with ` dirs` as well.
//! * `Under(directory)` asks the look-up and the listing of the directory, and then the names at and below each of its
//!   subdirectories. It ends with all these names in byte order, its own among them if it is a package.
//!
//! An empty group is not asked, and a key that repeats in a group is asked once, at its first place.
//!
//! Begin at `lookup_node.rt`, `glob_node.rt` and `names_node.rt`.
#![tactic(auto)]

ghost use Rattle.functions_directories.specs.NodeValues.{LookupsHold, GlobsHold};
ghost use Rattle.functions_directories.specs.Finds.{HoldsPackages, HavePackageNames};

mod build_files;
mod glob_node;
mod glob_pattern;
mod lookup_node;
mod name_ends;
mod name_marks;
mod names_node;
mod ordering;
mod possible_names;
mod reply;
mod search;

pub use build_files::{build_path, candidates};
pub use glob_node::{directories_in, glob, has_build};
pub use glob_pattern::path_in;
pub use lookup_node::lookup;
pub use names_node::package_names;
pub use ordering::in_order;
pub use reply::DirectoryTurn;
pub use search::{Search, glob_key};

/// States the law of the look-ups: at each state of the files, the value of a look-up's node is which BUILD file wins,
/// or none. It is true for any node functions whose look-ups are those of this crate.
pub fn lookup_nodes_are_right()
    ensures { LookupsHold }
{}

/// States the law of the globs, at files whose names are paths. The value of the node of a directory and a question is
/// what the question finds among all paths of the files, in byte order. It finds below the directory, and into no
/// package on the way. If it asks for directories, those that are not packages are found too. The law is true for any
/// node functions whose look-ups and globs are those of this crate.
pub fn glob_nodes_are_right()
    ensures { GlobsHold }
{}

/// States the law of the node, for any table of turns that has these, and by which look-ups have the values that they
/// must have. At files whose names are paths, the value of the node is the names of all packages at and below its
/// directory, whatever the directory.
pub fn package_name_nodes_are_right()
    ensures { HoldsPackages }
{}

/// States the law of the names: at files whose names are paths, a package at or below any directory has a package name.
pub fn packages_have_package_names()
    ensures { HavePackageNames }
{}
