//! The functions that files have without a binding, in one table: what each is called, its number, and which of them
//! are package calls.
ghost use Rattle.std.specs.Prelude.{◌≡◌};
ghost use Rattle.std.specs.List.{list_any};
ghost use Rattle.values_semantics.specs.Builtins.{builtin_number, builtin_at, builtin_name, same_builtin, package_functions};

/// A function that files have without a binding: of every file, or a package call.
#[derive(Clone, Copy)]
pub enum Builtin {
    Len,
    Range,
    Str,
    Repr,
    Type,
    Sorted,
    Reversed,
    Enumerate,
    Zip,
    List,
    Tuple,
    Dict,
    Bool,
    Any,
    All,
    Min,
    Max,
    Fail,
    Glob,
    Filegroup,
    Genrule,
    Alias,
    TestSuite,
    PackageName,
}

/// The functions that every file has.
pub const PLAIN: [Builtin; 18] = [
    Builtin::Len,
    Builtin::Range,
    Builtin::Str,
    Builtin::Repr,
    Builtin::Type,
    Builtin::Sorted,
    Builtin::Reversed,
    Builtin::Enumerate,
    Builtin::Zip,
    Builtin::List,
    Builtin::Tuple,
    Builtin::Dict,
    Builtin::Bool,
    Builtin::Any,
    Builtin::All,
    Builtin::Min,
    Builtin::Max,
    Builtin::Fail,
];

/// The package calls: BUILD files have them by their names, .bzl files as methods of `native`.
pub const PACKAGE: [Builtin; 6] = [
    Builtin::Glob,
    Builtin::Filegroup,
    Builtin::Genrule,
    Builtin::Alias,
    Builtin::TestSuite,
    Builtin::PackageName,
];

impl Builtin {
    /// Returns the function's number. Two functions are equal if their numbers are.
    pub fn number(self) -> usize
        ensures { result ≡ builtin_number self }
    {
        match self {
            Builtin::Len => 0,
            Builtin::Range => 1,
            Builtin::Str => 2,
            Builtin::Repr => 3,
            Builtin::Type => 4,
            Builtin::Sorted => 5,
            Builtin::Reversed => 6,
            Builtin::Enumerate => 7,
            Builtin::Zip => 8,
            Builtin::List => 9,
            Builtin::Tuple => 10,
            Builtin::Dict => 11,
            Builtin::Bool => 12,
            Builtin::Any => 13,
            Builtin::All => 14,
            Builtin::Min => 15,
            Builtin::Max => 16,
            Builtin::Fail => 17,
            Builtin::Glob => 18,
            Builtin::Filegroup => 19,
            Builtin::Genrule => 20,
            Builtin::Alias => 21,
            Builtin::TestSuite => 22,
            Builtin::PackageName => 23,
        }
    }

    /// Returns the function of a number, or the first one for a number that no function has.
    pub fn at_number(number: usize) -> Builtin
        ensures { result ≡ builtin_at number }
    {
        match number {
            0 => Builtin::Len,
            1 => Builtin::Range,
            2 => Builtin::Str,
            3 => Builtin::Repr,
            4 => Builtin::Type,
            5 => Builtin::Sorted,
            6 => Builtin::Reversed,
            7 => Builtin::Enumerate,
            8 => Builtin::Zip,
            9 => Builtin::List,
            10 => Builtin::Tuple,
            11 => Builtin::Dict,
            12 => Builtin::Bool,
            13 => Builtin::Any,
            14 => Builtin::All,
            15 => Builtin::Min,
            16 => Builtin::Max,
            17 => Builtin::Fail,
            18 => Builtin::Glob,
            19 => Builtin::Filegroup,
            20 => Builtin::Genrule,
            21 => Builtin::Alias,
            22 => Builtin::TestSuite,
            23 => Builtin::PackageName,
            _ => Builtin::Len,
        }
    }

    /// Returns the function's name, as it is in files.
    pub fn name(self) -> &'static str
        ensures { result.now ≡ builtin_name self }
    {
        match self {
            Builtin::Len => "len",
            Builtin::Range => "range",
            Builtin::Str => "str",
            Builtin::Repr => "repr",
            Builtin::Type => "type",
            Builtin::Sorted => "sorted",
            Builtin::Reversed => "reversed",
            Builtin::Enumerate => "enumerate",
            Builtin::Zip => "zip",
            Builtin::List => "list",
            Builtin::Tuple => "tuple",
            Builtin::Dict => "dict",
            Builtin::Bool => "bool",
            Builtin::Any => "any",
            Builtin::All => "all",
            Builtin::Min => "min",
            Builtin::Max => "max",
            Builtin::Fail => "fail",
            Builtin::Glob => "glob",
            Builtin::Filegroup => "filegroup",
            Builtin::Genrule => "genrule",
            Builtin::Alias => "alias",
            Builtin::TestSuite => "test_suite",
            Builtin::PackageName => "package_name",
        }
    }

    /// Returns whether the function is a package call.
    pub fn is_package_call(self) -> bool
        ensures { result ≡ list_any (same_builtin self) package_functions }
    {
        match self {
            Builtin::Glob => true,
            Builtin::Filegroup => true,
            Builtin::Genrule => true,
            Builtin::Alias => true,
            Builtin::TestSuite => true,
            Builtin::PackageName => true,
            _ => false,
        }
    }
}
