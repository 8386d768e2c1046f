//! The JSON that answers with packages, modules and their faults. Begin at `package_json.rt`.
#![tactic(auto)]

ghost use Rattle.loader_replies.specs.Laws.{AnswersArePlain, AttributesRise, ExportsRise, TextsStay};

mod draft;
mod fault_json;
mod module_json;
mod order;
mod package_json;
mod strings;

pub use draft::JsonWriter;
pub use module_json::{write_cyclic_module, write_exports, write_faulty_module};
pub use package_json::{
    begin_packages, end_packages, write_cyclic_package, write_faulty_package, write_package,
};

/// States that the attributes of a target are shown in byte order of their names, whatever their order, and one of each
/// name.
pub fn attributes_rise()
    ensures { AttributesRise }
{}

/// States that the names which a module exports are shown in byte order, each once.
pub fn exports_rise()
    ensures { ExportsRise }
{}

/// States that a string which is text is shown unchanged. The strings of files are ASCII.
pub fn texts_stay()
    ensures { TextsStay }
{}

/// States that every number in a reply is an integer, so that its text is determined byte for byte.
pub fn answers_are_plain()
    ensures { AnswersArePlain }
{}
