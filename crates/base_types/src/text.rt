//! A shared text.
ghost use Rattle.std.specs.Prelude.{◌≡◌, nat_eq, IfOk, Some, refl};
ghost use Rattle.std.specs.String.{string_bytes};
ghost use Rattle.std.specs.Hash as fed;
ghost use Rattle.std.proofs.Common.{rules};
ghost use Rattle.std.specs.Cmp.{partial_equiv_from_equiv};
ghost use Rattle.std.specs.Cmp.Rules.{hashing};
ghost use Rattle.std.specs.Cmp.Lexicographic.{pointwise, slice_cmp, nat_list_eq_equiv, nat_list_cmp_total, texts_po, texts_ties};
ghost use Rattle.std.specs.Ordering.{nat_cmp, as_partial_cmp};

use crate::memory::Memory;
use crate::short::ShortText;
use arrayvec::ArrayString;
use std::alloc::Global;
use std::cmp::Ordering;
use std::hash::{Hash, Hasher};
use std::marker::Model;
use std::sync::Arc;

/// The most bytes that are in one block of memory with their reference count.
const BLOCK: usize = 24;

/// Where the bytes of a text are.
#[derive(Drop)]
enum Storage {
    Short(ShortText),
    Block(Arc<ArrayString<BLOCK>, Global>),
    Long(Arc<String, Global>),
}

/// A shared text, which a contract sees as its bytes. Up to 14 bytes are in the text itself, and sharing it copies
/// them. A text of up to 24 bytes takes one allocation, and a longer one two.
pub struct Text {
    storage: Storage,
}

// Makes a shared text from a copy of bytes that are too many to be in the text itself.
fn long_text(alloc: Global, text: &str) -> Result<Text, Memory>
    ensures { IfOk result (λ t. t ≡ text.now) }
{
    let storage = match ArrayString::from(text) {
        Ok(bytes) => Storage::Block(Arc::new(alloc, bytes)?),
        Err(_) => Storage::Long(Arc::new(alloc, String::from_str(alloc, text)?)?),
    };
    Ok(Text { storage })
}

impl Drop for Text {
    fn drop(self) {
        let Text { storage: _ } = self;
    }
}

impl Model for Text {
    ghost use Rattle.std.specs.Prelude.{ℕ, List};
    ghost use Rattle.base_types.specs.Bytes.{bytes_of};

    ghost Value = { List ℕ };

    ghost view = { λ t. bytes_of t.storage };
}

impl Text {
    /// Makes a shared text from a copy of the bytes.
    pub fn new(alloc: Global, text: &str) -> Result<Text, Memory>
        ensures { IfOk result (λ t. t ≡ text.now) }
    {
        match ShortText::new(text) {
            Some(short) => Ok(Text {
                storage: Storage::Short(short),
            }),
            None => long_text(alloc, text),
        }
    }

    /// Makes a shared text from a string. The bytes of a long string are moved and not copied.
    pub fn from_string(alloc: Global, text: String) -> Result<Text, Memory>
        ensures { IfOk result (λ t. t ≡ string_bytes text) }
    {
        if text.len() <= BLOCK {
            return Text::new(alloc, text.as_str());
        }
        let storage = Storage::Long(Arc::new(alloc, text)?);
        Ok(Text { storage })
    }

    /// Returns the text.
    pub fn as_str(&self) -> &str
        ensures { result.now ≡ self.now }
    {
        match &self.storage {
            Storage::Short(text) => text.as_str(),
            Storage::Block(text) => text.as_str(),
            Storage::Long(text) => text.as_str(),
        }
    }

    /// Returns the same text, shared.
    pub fn share(&self) -> Result<Text, Memory>
        ensures { IfOk result (λ t. t ≡ self.now) }
    {
        let storage = match &self.storage {
            Storage::Short(text) => Storage::Short(text.copy()),
            Storage::Block(text) => Storage::Block(Arc::try_clone(text)?),
            Storage::Long(text) => Storage::Long(Arc::try_clone(text)?),
        };
        Ok(Text { storage })
    }
}

impl PartialEq for Text {
    ghost eq = { pointwise nat_eq };

    ghost laws = { partial_equiv_from_equiv nat_list_eq_equiv };

    fn eq(&self, other: &Text) -> bool {
        self.as_str() == other.as_str()
    }
}

impl Eq for Text {
    ghost laws = { nat_list_eq_equiv };
}

impl PartialOrd for Text {
    ghost partial_cmp = { as_partial_cmp (slice_cmp nat_cmp) };

    ghost laws = { texts_po };

    fn partial_cmp(&self, other: &Text) -> Option<Ordering> {
        Some(self.cmp(other))
    }
}

impl Ord for Text {
    ghost cmp = { slice_cmp nat_cmp };

    ghost total = { nat_list_cmp_total };

    ghost matches_partial_cmp = { λ x y. refl };

    ghost matches_eq = { texts_ties };

    fn cmp(&self, other: &Text) -> Ordering {
        self.as_str().cmp(other.as_str())
    }
}

impl Hash for Text {
    ghost hash_input = { λ t. fed.str t };

    ghost respects_eq = { Prim.search (hashing, rules) };

    fn hash<H: Hasher>(&self, state: &mut H) {
        self.as_str().hash(state);
    }
}
