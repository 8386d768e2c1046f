//! The node functions of the loader: what each kind of node asks and what value it ends with, and how a leaf is read,
//! which is `read_leaf` of `keys`.
//!
//! * `File(path)` is a leaf: its value is the text of that file, or none.
//! * `Listing(directory)` is a leaf: its value is the names of the files and of the subdirectories in that directory,
//!   or none.
//! * `Lookup(package)` asks one group, the files `BUILD.bazel` and `BUILD` of the package, but none whose path has more
//!   than 255 bytes, and ends with the first that is there. With no path short enough it ends at once.
//! * `Glob(directory pattern)` asks the listing of the directory, then the look-ups of the subdirectories that the
//!   pattern goes into, and then the globs below: with a pattern that begins with `**` that of the other segments in
//!   the same directory, and one in each of the subdirectories that are no packages. It ends with the paths that are
//!   found, from the directory on, in byte order.
//! * `Glob(directory pattern dirs)` finds directories too, those that are no packages. It also asks the look-ups of the
//!   subdirectories that the pattern would find, and its globs below end with ` dirs` as well.
//! * `Module(label)` asks the look-ups of its package and of each directory between the package and the file, then the
//!   file, and then the modules of all its loads. It ends with what the evaluation of the file leaves, or with the
//!   first fault: its package is none, a directory on the way is a package, the file is absent, its text is none of the
//!   language, a load names no module, a load is faulty, the evaluation stops.
//! * `Package(package)` asks its look-up, the BUILD file, the modules of all its loads, and then, at each call of
//!   `glob` that stops the evaluation, the globs of the patterns that have no answer. It ends with its targets, or with
//!   the first fault.
//! * `Under(directory)` asks the look-up and the listing of the directory, and then the names at and below each of its
//!   subdirectories. It ends with the names of all packages at and below the directory, in byte order.
//!
//! An empty group is not asked, and a key that repeats in a group is asked once, at its first place.
//!
//! Begin at `loading.rt` and `specs/Next.antt`; what the nodes of modules and packages hold is told in `file_laws.rt`.
#![tactic(auto)]

ghost use Rattle.functions.specs.NodeValues.{NamesHold, GlobsHold, PackagesHold};

mod evaluating;
mod file_laws;
mod file_node;
mod loading;
mod once;
mod reply;
mod source;

pub use file_laws::{
    cycles_have_no_value, cycles_that_are_reached_are_shown, each_has_a_value, each_has_one_value,
    files_determine_what_nodes_hold, modules_are_those_of_the_files, one_cycle_is_shown,
    packages_are_those_of_the_files, texts_are_read_by_the_grammar,
};
pub use keys::read_leaf;
pub use loading::{LoadRules, Loading};

/// States the law of the leaves and the look-ups, at each state of the files. The value of a file's node is its text or
/// none, and that of a listing's node is the names in the directory or none. The value of a look-up's node is which
/// BUILD file wins, or none.
pub fn leaf_and_lookup_nodes_are_right()
    ensures { NamesHold }
{}

/// States the law of the globs, at files whose names are paths. The value of the node of a directory and a question is
/// the paths that the question finds among all paths of the files, in byte order. It finds below the directory, and
/// into no package on the way. If it asks for directories, those that are not packages are found too.
pub fn glob_nodes_are_right()
    ensures { GlobsHold }
{}

/// States the law of the packages below a directory, at files whose names are paths. The value of the node of a
/// directory is the names of all packages at and below it, in byte order.
pub fn package_name_nodes_are_right()
    ensures { PackagesHold }
{}
