//! The packages of a load, each written once: the line that is the reply with them, and the entries that are published.
ghost use Rattle.std.specs.Prelude.{◌≡◌, ◌++◌, map, IfOk, OnOk, option_map, string_bytes};
ghost use Rattle.std.specs.Map.{lookup};
ghost use Rattle.keys.specs.declared.key.Key.TheVariants as keys;
ghost use Rattle.node.specs.Graphs.{record_at, present};
ghost use Rattle.serde_json.specs.Written.{compact_text, comma_if};
ghost use Rattle.shelf.specs.Lists.{same_text};
ghost use Rattle.loader_replies.specs.Answers.{packages_data};
ghost use Rattle.loader_commands.specs.View.{texts_seen};
ghost use Rattle.loader_answers.specs.Publishing.{HaveTextsHeld, names_in, and_name, each_of, package_held, text_held};
ghost use Rattle.loader_answers.specs.KeyAnswers.{package_reply};

use crate::request_answers::write_package_of;
use base_types::{Memory, Text};
use keys::Key;
use loader_replies::JsonWriter;
use node::Graph;
use std::alloc::Global;

/// The packages of a load as texts.
#[derive(Drop)]
pub struct Packages {
    /// The line that replies with all of them, without its byte 10.
    pub line: String,
    /// The text of each package under its name, each name once.
    pub entries: Vec<(Text, Text)>,
}

// Returns the text of the package of a key, from its value in the graph.
fn text_of(alloc: Global, graph: &Graph, key: &Key) -> Result<Text, Memory>
    ensures { IfOk result
        (λ text. text ≡ compact_text
        (package_reply key.now (present (record_at graph.now key.now)))) }
{
    let mut out = JsonWriter::new(alloc);
    write_package_of(alloc, &mut out, graph, key)?;
    let text = out.into_text();
    Text::from_string(alloc, text)
}

// Returns the text of the first entry for a name.
fn text_in<'a>(entries: &'a [(Text, Text)], name: &Text) -> Option<&'a Text>
    ensures { option_map (λ text. text.now) result ≡ lookup (λ n. same_text n name.now)
        entries.now }
{
    for entry in entries {
        if entry.0 == *name {
            return Some(&entry.1);
        }
    }
    None
}

// Returns the text of the package with a name. If no entry has the name, it makes the text and adds an entry for it.
fn cached_text(
    alloc: Global,
    graph: &Graph,
    name: Text,
    entries: &mut Vec<(Text, Text)>,
) -> Result<Text, Memory>
    requires { HaveTextsHeld graph.now entries.old.items }
    ensures text { IfOk result (λ text. text ≡ text_held graph.now name) }
    ensures held { OnOk result (HaveTextsHeld graph.now entries.new.items) }
    ensures names { OnOk result (names_in entries.new.items ≡ and_name (names_in entries.old.items)
        name) }
{
    if let Some(text) = text_in(entries.as_slice(), &name) {
        return text.share();
    }
    let key = Key::Package(name);
    let text = text_of(alloc, graph, &key)?;
    entries.push((key.name().share()?, text.share()?))?;
    Ok(text)
}

// Adds an item of an array to a line. A comma comes first if the item is not the first one.
fn add_item(line: &mut String, later: bool, text: &Text) -> Result<(), Memory>
    ensures { OnOk result (string_bytes line.new ≡ string_bytes line.old
        ++ (comma_if later ++ text.now)) }
{
    if later {
        line.push(',')?;
    }
    line.push_str(text.as_str())?;
    Ok(())
}

/// Writes the packages with these names, in their order. Each text is made once.
pub fn packages_reply(alloc: Global, graph: &Graph, names: &[&str]) -> Result<Packages, Memory>
    ensures line { IfOk result
        (λ p. string_bytes p.line ≡ compact_text
        (packages_data (map (package_held graph.now) (texts_seen names.now)))) }
    ensures held { IfOk result (λ p. HaveTextsHeld graph.now p.entries.items) }
    ensures names { IfOk result (λ p. names_in p.entries.items ≡ each_of (texts_seen names.now)) }
{
    let mut line = String::from_str(alloc, "{\"packages\":[")?;
    let mut entries = Vec::new(alloc);
    let mut later = false;
    for name in names {
        let text = cached_text(alloc, graph, Text::new(alloc, name)?, &mut entries)?;
        add_item(&mut line, later, &text)?;
        later = true;
    }
    line.push_str("]}")?;
    Ok(Packages { line, entries })
}
