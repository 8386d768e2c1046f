//! Attributes in byte order of their names.
ghost use Rattle.std.specs.Prelude.{◌≡◌, OnOk, IfOk};
ghost use Rattle.std.specs.Cow.{cow_str_bytes};
ghost use Rattle.std.specs.Str.Lossy.{utf8_lossy};
ghost use Rattle.serde_json.specs.Data.{put, no_members};
ghost use Rattle.values_modules.specs.View.{attribute_of};
ghost use Rattle.loader_replies.specs.Answers.{attribute_data, put_attributes};
ghost use Rattle.loader_replies.specs.Order.{onto, Passes};

use base_types::Memory;
use std::alloc::Global;
use std::borrow::CowStr;
use values_modules::{AttributeReader, AttributeValue};

/// An attribute: its name and its value.
#[derive(Drop)]
pub struct Row<'a> {
    /// The name, as text.
    pub name: CowStr<'a, Global>,
    /// The value of the attribute.
    pub value: AttributeValue<'a>,
}

// Returns bytes as text. Bytes that are text are not copied.
fn text_of<'a>(alloc: Global, bytes: &'a [u8]) -> Result<CowStr<'a, Global>, Memory>
    ensures { IfOk result (λ text. cow_str_bytes text ≡ utf8_lossy bytes.now) }
{
    if let Ok(text) = str::from_utf8(bytes) {
        return Ok(CowStr::Borrowed(text));
    }
    let text = String::from_utf8_lossy(alloc, bytes)?;
    Ok(CowStr::Owned(text))
}

// Returns how many rows have names below this one, from the first on.
fn place_of(rows: &[Row<'_>], name: &str) -> usize
    ensures { Passes name.now rows.now result }
{
    let mut at = 0;
    while at < rows.len() && name > rows[at].name.as_str() {
        at += 1;
    }
    at
}

// Inserts a row at its place among others. It replaces one of the same name.
fn insert_row<'a>(rows: &mut Vec<Row<'a>>, row: Row<'a>) -> Result<(), Memory>
    ensures { OnOk result (onto rows.new.items no_members ≡ put (cow_str_bytes row.entry.name)
        (attribute_data (attribute_of row.entry.value)) (onto rows.old.items no_members)) }
{
    let at = place_of(rows.as_slice(), row.name.as_str());
    if at < rows.len() && row.name.as_str().cmp(rows[at].name.as_str()).is_eq() {
        rows[at] = row;
        return Ok(());
    }
    Ok(rows.insert(at, row)?)
}

/// Returns attributes in byte order of their names. Of several with one name the last is kept.
pub fn rows_of<'a>(alloc: Global, attributes: AttributeReader<'a>) -> Result<Vec<Row<'a>>, Memory>
    ensures { IfOk result (λ rows. onto rows.items no_members ≡ put_attributes attributes.entry
        no_members) }
{
    let mut rest = attributes;
    let mut rows = Vec::new(alloc);
    while let Some(attribute) = rest.next() {
        let name = text_of(alloc, attribute.name)?;
        let value = attribute.value;
        insert_row(&mut rows, Row { name, value })?;
    }
    Ok(rows)
}
