//! The keys whose jobs are out.
ghost use Rattle.std.specs.Prelude.{◌≡◌, [], ◌∷◌, OnOk, OnErr};
ghost use Rattle.std.specs.Bool.{Decides};
ghost use Rattle.engine_semantics.specs.Value.{In};
ghost use Rattle.round.specs.JobsOut.{keys_without};

use base_types::Memory;
use http_server::Log;
use keys::Key;
use std::marker::Model;

/// The keys whose jobs are out. A contract sees them; a program knows only how many there are.
#[derive(Drop)]
pub struct OutKeys {
    count: u32,
    changes: Log<Key, bool>,
}

impl Model for OutKeys {
    ghost use Rattle.std.specs.Prelude.{◌≡◌, List, length};
    ghost use Rattle.keys.specs.declared.key.Key.{Key};
    ghost use Rattle.round.specs.JobsOut.{keys_after};

    ghost Value = { List Key };

    ghost view = { λ o. keys_after o.changes.items };

    ghost invariant = { λ o. o.count ≡ length (keys_after o.changes.items) };
}

impl OutKeys {
    /// Makes a set of no keys.
    pub fn new() -> OutKeys
        ensures { result ≡ [] }
    {
        OutKeys {
            count: 0,
            changes: Log::new(),
        }
    }

    /// Returns whether no job is out.
    pub fn is_empty(&self) -> bool
        ensures { Decides result (self.now ≡ []) }
    {
        self.count == 0
    }

    /// Adds a key whose job was not out. Returns `Memory` if more jobs would be out than 32 bits can count.
    pub fn add(&mut self, key: &Key) -> Result<(), Memory>
        requires { In key.now self.old → ⊥ }
        ensures added { OnOk result (self.new ≡ key.now ∷ self.old) }
        ensures refused { OnErr result (self.new ≡ self.old) }
    {
        let wanted = self.count as u128 + 1;
        let Ok(count) = u32::try_from(wanted) else {
            return Err(Memory::no_number_left(wanted));
        };
        self.count = count;
        self.changes = self.changes.and(key, &true);
        Ok(())
    }

    /// Removes a key whose job was out.
    pub fn remove(&mut self, key: &Key)
        requires { In key.now self.old }
        ensures { self.new ≡ keys_without key.now self.old }
    {
        self.count -= 1;
        self.changes = self.changes.and(key, &false);
    }
}
