//! Strings.
ghost use Rattle.std.specs.Prelude.{◌≡◌, ◌++◌, OnOk, map};
ghost use Rattle.serde_json.specs.Data.{string};
ghost use Rattle.loader_replies.specs.Answers.{list, string_data};
ghost use Rattle.loader_replies.specs.Tokens.{tokens_of};

use crate::draft::JsonWriter;
use base_types::{Memory, Text};
use std::alloc::Global;
use values_modules::TextReader;

/// Writes a string that an evaluation made. Bytes that are text are not copied.
pub fn write_string(alloc: Global, out: &mut JsonWriter, bytes: &[u8]) -> Result<(), Memory>
    ensures { OnOk result (out.new ≡ out.old ++ tokens_of (string_data bytes.now)) }
{
    match str::from_utf8(bytes) {
        Ok(text) => out.string(text),
        Err(_) => {
            let text = String::from_utf8_lossy(alloc, bytes)?;
            out.string(text.as_str())
        }
    }
}

/// Writes the strings of a list, in their order.
pub fn write_strings(
    alloc: Global,
    out: &mut JsonWriter,
    strings: TextReader<'_>,
) -> Result<(), Memory>
    ensures { OnOk result
        (out.new ≡ out.old ++ tokens_of (list (map string_data strings.entry))) }
{
    let mut rest = strings;
    out.begin_array()?;
    while let Some(bytes) = rest.next() {
        write_string(alloc, out, bytes)?;
    }
    out.end_array()
}

/// Writes texts, in their order.
pub fn write_texts(out: &mut JsonWriter, texts: &[Text]) -> Result<(), Memory>
    ensures { OnOk result (out.new ≡ out.old ++ tokens_of (list (map string texts.now))) }
{
    out.begin_array()?;
    for text in texts {
        out.string(text.as_str())?;
    }
    out.end_array()
}
