//! The result of a glob, and the laws of the walk that finds it pattern by pattern and directory by directory. Begin at
//! `specs/Globs.antt`.
ghost use Rattle.pattern.specs.Globs.{IsFoundByWalk, IsFoundByPatterns, IsHeldWithDirectories, HasItsPattern};

/// States the law of the walk, for all files, packages, directories and patterns. One step makes what a pattern finds
/// below a directory from three things: the names in the directory, which subdirectories are packages, and further
/// finds. These are what the same pattern or the rest of it finds below this directory and its subdirectories.
pub fn walk_finds_pattern()
    ensures { IsFoundByWalk }
{}

/// States the law of the result: a glob gives what its included patterns find, without what an excluded one matches.
pub fn glob_is_union_of_patterns()
    ensures { IsFoundByPatterns }
{}

/// States the law of directories. A glob that finds directories too searches the paths of the files and the directories
/// on the way to them that are not packages. In a directory these are its files and its open subdirectories. So each
/// step of the walk finds the names that it found, and the open subdirectories.
pub fn glob_with_directories()
    ensures { IsHeldWithDirectories }
{}

/// States the law of questions: the pattern, and whether directories are asked for, can be read back from the text.
pub fn question_has_its_pattern()
    ensures { HasItsPattern }
{}
