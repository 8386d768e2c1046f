//! A number for contracts alone.
ghost use Rattle.std.specs.Prelude.{◌≡◌, ◌+◌};

use http_server::Log;
use std::marker::Model;

/// How often something was done. A contract sees the number, which has no largest value; a program cannot read it.
#[derive(Drop)]
pub struct Count {
    log: Log<(), ()>,
}

impl Model for Count {
    ghost use Rattle.std.specs.Prelude.{ℕ, length};

    ghost Value = { ℕ };

    ghost view = { λ c. length c.log.items };
}

impl Count {
    /// Makes a count of zero.
    pub fn new() -> Count
        ensures { result ≡ 0 }
    {
        Count { log: Log::new() }
    }

    /// Adds one to the count.
    pub fn add_one(&mut self)
        ensures { self.new ≡ self.old + 1 }
    {
        self.log = self.log.and(&(), &());
    }
}
