//! The bytes of a string.
ghost use Rattle.std.specs.Prelude.{◌≡◌, nat_eq, IfOk};
ghost use Rattle.std.specs.Hash as fed;
ghost use Rattle.std.specs.Cmp.{partial_equiv_from_equiv};
ghost use Rattle.std.specs.Cmp.Lexicographic.{pointwise, nat_list_eq_equiv};
ghost use Rattle.values_semantics.specs.KeyLaws.{texts_alike};
ghost use Rattle.values_semantics.specs.HashInput.{text_fed};

use base_types::{Memory, Text};
use std::alloc::Global;
use std::hash::{Hash, Hasher};
use std::marker::Model;
use std::sync::Arc;

// A text of the source, or one that an evaluation made.
#[derive(Drop)]
enum Inner {
    Source(Text),
    Made(Arc<Vec<u8>>),
}

/// A string, shared, which a contract sees as its bytes.
pub struct Bytes {
    inner: Inner,
}

impl Drop for Bytes {
    fn drop(self) {
        let Bytes { inner: _ } = self;
    }
}

impl Model for Bytes {
    ghost use Rattle.std.specs.Prelude.{ℕ, List};

    ghost Value = { List ℕ };

    ghost use Rattle.values_semantics.specs.Texts.{inner_bytes};

    ghost view = { λ b. inner_bytes b.inner };
}

impl Bytes {
    /// Makes a string from a text of the source.
    pub fn of_text(text: Text) -> Bytes
        ensures { result ≡ text }
    {
        Bytes {
            inner: Inner::Source(text),
        }
    }

    /// Makes a string of these bytes.
    pub fn new(alloc: Global, bytes: Vec<u8>) -> Result<Bytes, Memory>
        ensures { IfOk result (λ b. b ≡ bytes.items) }
    {
        let inner = Inner::Made(Arc::new(alloc, bytes)?);
        Ok(Bytes { inner })
    }

    /// Returns the bytes.
    pub fn as_slice(&self) -> &[u8]
        ensures { result.now ≡ self.now }
    {
        match &self.inner {
            Inner::Source(text) => text.as_str().as_bytes(),
            Inner::Made(bytes) => bytes.as_slice(),
        }
    }

    /// Returns the same string, shared.
    pub fn share(&self) -> Result<Bytes, Memory>
        ensures { IfOk result (λ b. b ≡ self.now) }
    {
        let inner = match &self.inner {
            Inner::Source(text) => Inner::Source(text.share()?),
            Inner::Made(bytes) => Inner::Made(Arc::try_clone(bytes)?),
        };
        Ok(Bytes { inner })
    }
}

impl PartialEq for Bytes {
    ghost eq = { pointwise nat_eq };

    ghost laws = { partial_equiv_from_equiv nat_list_eq_equiv };

    fn eq(&self, other: &Bytes) -> bool {
        self.as_slice() == other.as_slice()
    }
}

impl Eq for Bytes {
    ghost laws = { nat_list_eq_equiv };
}

impl Hash for Bytes {
    ghost hash_input = { text_fed };

    ghost respects_eq = { texts_alike.fed };

    fn hash<H: Hasher>(&self, state: &mut H) {
        state.write(self.as_slice());
    }
}
