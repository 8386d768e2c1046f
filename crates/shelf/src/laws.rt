//! A law of what names have, as the contract of a function without a body.
ghost use Rattle.shelf.specs.Laws.{EachNameHasItsText};

/// States the law of a publish of names, each with its text: these names have it at that version. Other names have what
/// they had. It does not matter whether a name occurs twice.
pub fn each_name_has_its_text()
    ensures { EachNameHasItsText }
{}
