//! The attributes of a target.
ghost use Rattle.std.specs.Prelude.{◌≡◌, ◌++◌, ◌∷◌, [], IfOk, MatchOption};
ghost use Rattle.values_modules.specs.Values.{single, several};
ghost use Rattle.values_modules.specs.Blocks.{block_bytes};
ghost use Rattle.values_modules.specs.Encoding.{attribute_texts, attribute_in, attributes_in, IsOfForm};
ghost use Rattle.values_modules.specs.View.{attribute_of, attributed_of};

use crate::blocks::{TextBlock, TextReader};
use base_types::Memory;
use std::alloc::Global;
use std::marker::Model;

/// The value of an attribute.
#[derive(Drop)]
pub enum AttributeValue<'a> {
    /// A string, or the text of a label.
    Single(&'a [u8]),
    /// A list of these.
    Several(TextReader<'a>),
}

/// An attribute: its name and its value.
#[derive(Drop)]
pub struct Attribute<'a> {
    pub name: &'a [u8],
    pub value: AttributeValue<'a>,
}

/// The attributes of a target in one block: the name, the form and the value of each. A contract sees the attributes.
#[derive(Drop)]
pub struct Attributes {
    block: TextBlock,
}

impl Model for Attributes {
    ghost use Rattle.std.specs.Prelude.{◌≡◌, ℕ, List};
    ghost use Rattle.values_modules.specs.Values.{Attribute};
    ghost use Rattle.values_modules.specs.Encoding.{attribute_texts, attributes_in};

    ghost Value = { List (List ℕ × Attribute) };

    ghost view = { λ a. attributes_in a.block };

    ghost invariant = { λ a. a.block ≡ attribute_texts (attributes_in a.block) };
}

impl Attributes {
    /// Makes a list without attributes.
    pub fn new(alloc: Global) -> Result<Attributes, Memory>
        ensures { IfOk result (λ attributes. attributes ≡ []) }
    {
        let block = TextBlock::new(alloc)?;
        Ok(Attributes { block })
    }

    /// Adds an attribute whose value is a string, or the text of a label.
    pub fn with_single(self, name: &[u8], text: &[u8]) -> Result<Attributes, Memory>
        ensures { IfOk result (λ attributes. attributes ≡ self
            ++ (name.now, single text.now) ∷ []) }
    {
        let block = self.block.with(name)?.with(&[])?.with(text)?;
        Ok(Attributes { block })
    }

    /// Adds an attribute whose value is a list of strings, or of texts of labels.
    pub fn with_several(self, name: &[u8], texts: &TextBlock) -> Result<Attributes, Memory>
        ensures { IfOk result (λ attributes. attributes ≡ self
            ++ (name.now, several texts.now) ∷ []) }
    {
        let block = self.block.with(name)?.with(&[1])?.with(texts.as_slice())?;
        Ok(Attributes { block })
    }

    /// Returns the bytes.
    pub fn as_slice(&self) -> &[u8]
        ensures { result.now ≡ block_bytes (attribute_texts self.now) }
    {
        self.block.as_slice()
    }
}

/// Attributes of a target that are still to be read. A contract sees them.
#[derive(Drop)]
pub struct AttributeReader<'a> {
    texts: TextReader<'a>,
}

impl<'a> Model for AttributeReader<'a> {
    ghost use Rattle.std.specs.Prelude.{◌≡◌, ℕ, List};
    ghost use Rattle.values_modules.specs.Values.{Attribute};
    ghost use Rattle.values_modules.specs.Encoding.{attribute_texts, attributes_in};

    ghost Value = { List (List ℕ × Attribute) };

    ghost view = { λ r. attributes_in r.texts };

    ghost invariant = { λ r. r.texts ≡ attribute_texts (attributes_in r.texts) };
}

// Returns the value of an attribute of this form.
fn value_read<'a>(form: &'a [u8], value: &'a [u8]) -> AttributeValue<'a>
    requires { IsOfForm form.now value.now }
    ensures { attribute_of result ≡ attribute_in form.now value.now }
{
    match form {
        [] => AttributeValue::Single(value),
        [..] => AttributeValue::Several(TextReader::of(value)),
    }
}

impl<'a> AttributeReader<'a> {
    /// Makes a reader of attributes, which begins with the first.
    pub fn of(texts: TextReader<'a>) -> AttributeReader<'a>
        requires { texts ≡ attribute_texts (attributes_in texts) }
        ensures { result ≡ attributes_in texts.entry }
    {
        AttributeReader { texts }
    }

    /// Reads the next attribute. Returns `None` if all were read.
    pub fn next(&mut self) -> Option<Attribute<'a>>
        ensures { MatchOption result ((self.old ≡ []) × (self.new ≡ []))
            (λ a. self.old ≡ attributed_of a ∷ self.new) }
    {
        let name = self.texts.next()?;
        let Some(form) = self.texts.next() else {
            unreachable!()
        };
        let Some(value) = self.texts.next() else {
            unreachable!()
        };
        let value = value_read(form, value);
        Some(Attribute { name, value })
    }
}
