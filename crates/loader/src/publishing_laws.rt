//! Laws of what is published, as the contracts of functions without bodies.
ghost use Rattle.loader.specs.PublishingLaws.{PublishIsFound, PublishTellsTheFiles, FoundTellsTheFiles};

/// States that a published load is found: after it each name asked for has the text of its package, with the version of
/// the files. Other names have what they had.
pub fn published_load_is_found()
    ensures { PublishIsFound }
{}

/// States the law of all that is published, if every publish is a load's. Each text is the reply for its package, at
/// the files of its version. A publish keeps that true of a list, and whatever a reader finds is such a text.
pub fn published_texts_are_answers()
    ensures kept { PublishTellsTheFiles }
    ensures found { FoundTellsTheFiles }
{}
