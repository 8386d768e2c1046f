//! Laws of keys and their texts.
ghost use Rattle.keys.specs.KeyTexts.{TextsTellApart, AreInOrderOfTexts};

/// States that keys with equal texts are equal keys, if no space is in a glob's directory and pattern. Paths, directory
/// names and patterns have none.
pub fn texts_tell_keys_apart()
    ensures { TextsTellApart }
{}

/// States that such keys are ordered by kind, and then by the bytes that are after the kind's word in their texts.
pub fn keys_are_in_the_order_of_their_texts()
    ensures { AreInOrderOfTexts }
{}
