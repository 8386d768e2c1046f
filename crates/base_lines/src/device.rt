//! Where bytes come from, and where they go.
ghost use Rattle.std.specs.Prelude.{◌≡◌, ℕ, ◌+◌, ◌<◌, ◌≤◌, List, ◌++◌, length, take, Option, None, IfOk, OnOk, OnErr};

/// The error of a device that failed.
#[derive(Clone, Copy)]
pub struct DeviceError;

/// Where bytes come from.
pub trait Input {
    // The bytes that it has read from its device.
    ghost told: { Self → List ℕ };

    // How often it has failed.
    ghost failures: { Self → ℕ };

    // How often it has reported its end: it read no byte, though there was room for one.
    ghost ends: { Self → ℕ };

    // The most bytes that it can still read.
    ghost left: { Self → ℕ };

    // The bytes that its device had at first, where they are known.
    ghost at_first: { Self → Option (List ℕ) } = { λ _. None };

    /// Reads some bytes. It reads none only at the end or where there is no room.
    fn read(&mut self, buffer: &mut [u8]) -> Result<usize, DeviceError>
        ensures count { IfOk result (λ n. n ≤ length buffer.new) }
        ensures told { IfOk result (λ n. told self.new ≡ told self.old ++ take n buffer.new) }
        ensures left { IfOk result (λ n. left self.new + n ≤ left self.old) }
        ensures ended { IfOk result (λ n. n ≡ 0 → 0 < length buffer.new → ends self.old
            < ends self.new) }
        ensures ends { ends self.old ≤ ends self.new }
        ensures counted { failures self.old ≤ failures self.new }
        ensures failed { OnErr result (failures self.old < failures self.new) }
        ensures err { OnErr result (told self.new ≡ told self.old) }
        ensures device { at_first self.new ≡ at_first self.old };
}

/// Where bytes go.
pub trait Output {
    // The bytes that it has written.
    ghost held: { Self → List ℕ };

    // How often it has failed.
    ghost failures: { Self → ℕ };

    // The bytes that its device had at first, where they are known.
    ghost at_first: { Self → Option (List ℕ) } = { λ _. None };

    /// Writes all the bytes and keeps none back.
    fn write(&mut self, bytes: &[u8]) -> Result<(), DeviceError>
        ensures held { OnOk result (held self.new ≡ held self.old ++ bytes.now) }
        ensures counted { failures self.old ≤ failures self.new }
        ensures failed { OnErr result (failures self.old < failures self.new) }
        ensures err { OnErr result
            ((n : ℕ) × (held self.new ≡ held self.old ++ take n bytes.now)) }
        ensures device { at_first self.new ≡ at_first self.old };
}
