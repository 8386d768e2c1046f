//! Numbers of keys.
ghost use Rattle.std.specs.Prelude.{◌≡◌};

use std::marker::Model;

/// The number of a key in a table, which is its place there.
#[derive(Clone, Copy, Drop)]
pub struct NodeId {
    place: u32,
}

impl Model for NodeId {
    ghost use Rattle.std.specs.Prelude.{ℕ};

    ghost Value = { ℕ };

    ghost view = { λ n. n.place };

    ghost inverse = { λ n. record { place = n } };
}

impl NodeId {
    /// Returns the number of a place.
    pub fn at(place: u32) -> NodeId
        ensures { result ≡ place }
    {
        NodeId { place }
    }

    /// Returns the place.
    pub fn place(self) -> usize
        ensures { result ≡ self }
    {
        self.place as usize
    }
}
