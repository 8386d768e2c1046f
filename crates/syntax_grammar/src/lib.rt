//! The grammar of source files, as definitions and laws.
//!
//! `specs/Grammar` says which tokens are which tree, one rule for each alternative of a production, and `specs/Texts`
//! what the tree of a text is and what refuses a text. The other files of `specs/` read the same grammar by functions,
//! as the parser does; `proofs/` shows that both are one.
//!
//! Begin at `specs/Grammar.antt`.
#![tactic(auto)]

ghost use Rattle.syntax_grammar.specs.TargetRules.{TargetsAreByTheirRules};
ghost use Rattle.syntax_grammar.specs.Texts.{NoTextHasTwoTrees, NoTreeIsRefused};

mod kind;

pub use kind::{FileKind, Kind, Rank, Within};

/// States the law that no text has two trees, for both kinds of files.
pub fn no_text_has_two_trees()
    ensures { NoTextHasTwoTrees }
{}

/// States the law that no text with a tree is refused, for both kinds of files.
pub fn no_tree_is_refused()
    ensures { NoTreeIsRefused }
{}

/// States the law of targets. The postfix expressions that can be assigned to are those that the production of targets
/// relates to the same trees.
pub fn targets_are_by_their_rules()
    ensures { TargetsAreByTheirRules }
{}
