//! The numbers of the refusals of lines, with their names.

/// The line is not a command.
pub const NO_COMMAND: u64 = 1;
/// The text is not a path.
pub const BAD_PATH: u64 = 2;
/// A proper ancestor of the path is a file, or the path is a directory.
pub const IN_THE_WAY: u64 = 3;
/// There is no such file.
pub const NO_FILE: u64 = 4;
/// The text is not a package name, or not a label of a module.
pub const BAD_NAME: u64 = 5;
/// The line is too long.
pub const LINE_TOO_LONG: u64 = 6;
/// The text is too long.
pub const TEXT_TOO_LONG: u64 = 7;
/// No version is left.
pub const VERSIONS_SPENT: u64 = 8;
/// There are no names, or too many.
pub const NAMES_COUNT: u64 = 9;
/// There are no changes, or too many.
pub const CHANGES_COUNT: u64 = 10;
