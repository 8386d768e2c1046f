//! The values of the nodes of modules and packages, in terms of the files alone.
//!
//! `specs/Loads` says which file is evaluated for a module or a package, which modules its load statements name, and
//! where loads lead into a cycle. `specs/FilePackages` says what the module of a label and the package of a directory
//! are at one state of the files: the first fault of the file, else the first fault of its loads, else what the
//! evaluation of the file leaves. Both refer to the files, and to nothing that a node asks for or keeps; the laws below
//! tie the nodes to them. Begin at `specs/FilePackages.antt`.
ghost use Rattle.functions.specs.FilePackages.{ModulesHold, PackagesHold};
ghost use Rattle.functions.specs.PackageLaws.{CyclesHaveNoModule, CyclesHaveNoPackage, SomeModuleHeld, SomePackageHeld, OneCycle, OneModule, OneModuleHeld, OnePackage, OnePackageHeld, ModulesShowTheirCycles, PackagesShowTheirCycles};
ghost use Rattle.functions.specs.Readings.{FaultsAreByTheGrammar, TreesAreByTheGrammar};

/// States the law of the modules, at files whose names are paths. The value of the node of a module's label is the
/// module that the files mean, or its fault. If a walk along its loads meets a module twice, it is the cycle to which
/// they lead.
pub fn modules_are_those_of_the_files()
    ensures { ModulesHold }
{}

/// States the law of the packages, at files whose names are paths. The value of the node of a package's name is the
/// targets that the files mean, or its fault, or likewise the cycle to which its loads lead. What a glob of its BUILD
/// file gives is defined by all paths of the files.
pub fn packages_are_those_of_the_files()
    ensures { PackagesHold }
{}

/// States the law of one value: the files mean at most one module for a label, and at most one package for a name. It
/// does not matter by which right answers to its globs a BUILD file is evaluated.
pub fn each_has_one_value()
    ensures module { OneModule }
    ensures package { OnePackage }
{}

/// States the law of cycles: a module or a package that shows a cycle has no value at the files, and no fault either.
pub fn cycles_have_no_value()
    ensures module { CyclesHaveNoModule }
    ensures package { CyclesHaveNoPackage }
{}

/// States the law of one cycle: a module or a package shows at most one cycle, wherever the cycle is entered.
pub fn one_cycle_is_shown()
    ensures { OneCycle }
{}

/// States the law of one answer: the files determine the value of the node of a module, and the value of the node of a
/// package.
pub fn files_determine_what_nodes_hold()
    ensures module { OneModuleHeld }
    ensures package { OnePackageHeld }
{}

/// States the law of existence, at any files. Each label has a module, a fault or a cycle, and each name has a package,
/// a fault or a cycle. Right answers to its globs that let the evaluation of a BUILD file end are part of it.
pub fn each_has_a_value()
    ensures module { SomeModuleHeld }
    ensures package { SomePackageHeld }
{}

/// States the law of shown cycles. If some walk along the loads of a module or a package meets a module twice, it shows
/// a cycle, and it is the one to which the first such loads lead. No other module or package shows a cycle.
pub fn cycles_that_are_reached_are_shown()
    ensures module { ModulesShowTheirCycles }
    ensures package { PackagesShowTheirCycles }
{}

/// States the law of readings. The definitions of nodes read a text by a function. It gives a tree exactly where the
/// grammar relates the text to that tree, and a fault exactly where the grammar refuses the text.
pub fn texts_are_read_by_the_grammar()
    ensures tree { TreesAreByTheGrammar }
    ensures fault { FaultsAreByTheGrammar }
{}
