//! The text of a reply that is being written.
ghost use Rattle.std.specs.Prelude.{◌≡◌, ◌++◌, ◌∷◌, [], OnOk, decimal, string_bytes};
ghost use Rattle.json.specs.Print.{print};
ghost use Rattle.serde_json.specs.Data.{Data};
ghost use Rattle.serde_json.specs.Written.{compact_text};
ghost use Rattle.loader_replies.specs.Tokens.{tokens_of};
ghost use Rattle.json.specs.Token.{begin_object, end_object, begin_array, end_array, key, string, number, boolean, null};

use base_types::Memory;
use json::Writer;
use std::alloc::Global;
use std::marker::Model;

/// The beginning of a text of JSON. It grows by one token at a time, directly from where the values are. A contract
/// sees the tokens. Each call that writes returns `Memory` if an allocation fails; the writer is then of no use.
#[derive(Drop)]
pub struct JsonWriter {
    writer: Writer,
}

impl Model for JsonWriter {
    ghost use Rattle.std.specs.Prelude.{◌≡◌, List, []};
    ghost use Rattle.json.specs.Token.{Token, tokens_code};

    ghost Value = { List Token };

    ghost coded = { tokens_code };

    ghost view = { λ d. d.writer.tokens };

    ghost invariant = { λ d. d.writer.before ≡ [] };
}

impl JsonWriter {
    /// Makes a writer without tokens.
    pub fn new(alloc: Global) -> JsonWriter
        ensures { result ≡ [] }
    {
        JsonWriter {
            writer: Writer::new(Vec::new(alloc)),
        }
    }

    /// Returns the text. If the tokens are those of a value, it is that value's text.
    pub fn into_text(self) -> String
        ensures print { string_bytes result ≡ print self }
        ensures value { (d : Data) → self ≡ tokens_of d → string_bytes result ≡ compact_text d }
    {
        match String::from_utf8(self.writer.into_inner()) {
            Ok(text) => text,
            Err(_) => unreachable!(),
        }
    }

    /// Begins an object.
    #[inline]
    pub fn begin_object(&mut self) -> Result<(), Memory>
        ensures { OnOk result (self.new ≡ self.old ++ begin_object ∷ []) }
    {
        Ok(self.writer.begin_object()?)
    }

    /// Ends an object.
    #[inline]
    pub fn end_object(&mut self) -> Result<(), Memory>
        ensures { OnOk result (self.new ≡ self.old ++ end_object ∷ []) }
    {
        Ok(self.writer.end_object()?)
    }

    /// Begins an array.
    #[inline]
    pub fn begin_array(&mut self) -> Result<(), Memory>
        ensures { OnOk result (self.new ≡ self.old ++ begin_array ∷ []) }
    {
        Ok(self.writer.begin_array()?)
    }

    /// Ends an array.
    #[inline]
    pub fn end_array(&mut self) -> Result<(), Memory>
        ensures { OnOk result (self.new ≡ self.old ++ end_array ∷ []) }
    {
        Ok(self.writer.end_array()?)
    }

    /// Writes the name of a member.
    #[inline]
    pub fn key(&mut self, name: &str) -> Result<(), Memory>
        ensures { OnOk result (self.new ≡ self.old ++ key name.now ∷ []) }
    {
        Ok(self.writer.key(name)?)
    }

    /// Writes a string.
    #[inline]
    pub fn string(&mut self, text: &str) -> Result<(), Memory>
        ensures { OnOk result (self.new ≡ self.old ++ string text.now ∷ []) }
    {
        Ok(self.writer.string(text)?)
    }

    /// Writes a number.
    #[inline]
    pub fn number(&mut self, n: u64) -> Result<(), Memory>
        ensures { OnOk result (self.new ≡ self.old ++ number (decimal n) ∷ []) }
    {
        Ok(self.writer.u64(n)?)
    }

    /// Writes `true` or `false`.
    #[inline]
    pub fn boolean(&mut self, value: bool) -> Result<(), Memory>
        ensures { OnOk result (self.new ≡ self.old ++ boolean value ∷ []) }
    {
        Ok(self.writer.boolean(value)?)
    }

    /// Writes `null`.
    #[inline]
    pub fn null(&mut self) -> Result<(), Memory>
        ensures { OnOk result (self.new ≡ self.old ++ null ∷ []) }
    {
        Ok(self.writer.null()?)
    }

    /// Writes a member that is a string.
    pub fn string_member(&mut self, name: &str, text: &str) -> Result<(), Memory>
        ensures { OnOk result (self.new ≡ self.old ++ key name.now ∷ string text.now ∷ []) }
    {
        self.key(name)?;
        self.string(text)
    }

    /// Writes a member that is a number.
    pub fn number_member(&mut self, name: &str, n: u64) -> Result<(), Memory>
        ensures { OnOk result (self.new ≡ self.old ++ key name.now ∷ number (decimal n) ∷ []) }
    {
        self.key(name)?;
        self.number(n)
    }
}
