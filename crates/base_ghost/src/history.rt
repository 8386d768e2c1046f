//! A history of bytes for contracts alone.
ghost use Rattle.std.specs.Prelude.{◌≡◌, ◌++◌, ◌∷◌, []};

use http_server::Log;
use std::marker::Model;

/// The bytes that a reader has given or a writer has taken. A contract sees the list of all of them in order; a program
/// cannot read it.
#[derive(Drop)]
pub struct History {
    log: Log<u8, ()>,
}

impl Model for History {
    ghost use Rattle.std.specs.Prelude.{ℕ, List, map};

    ghost Value = { List ℕ };

    ghost view = { λ h. map (λ p. p.0) h.log.items };
}

impl History {
    /// Makes a history without a byte.
    pub fn new() -> History
        ensures { result ≡ [] }
    {
        History { log: Log::new() }
    }

    /// Adds one byte.
    pub fn add(&mut self, byte: &u8)
        ensures { self.new ≡ self.old ++ byte.now ∷ [] }
    {
        self.log = self.log.and(byte, &());
    }

    /// Adds bytes, in order.
    pub fn add_all(&mut self, bytes: &[u8])
        ensures { self.new ≡ self.old ++ bytes.now }
    {
        for byte in bytes {
            self.add(byte);
        }
    }
}
