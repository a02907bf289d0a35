ghost use Rattle.std.specs.Prelude.{◌≡◌, ℕ};

use bosh_base::{Disk, Machine};

/// What a call created.
pub trait Created {
    ghost call: { Self → ℕ };

    /// The number of the call.
    fn call(&self) -> u64
        ensures { result ≡ call self.now };
}

impl Created for Machine {
    ghost call = { λ machine. machine.agent };

    fn call(&self) -> u64 {
        self.agent
    }
}

impl Created for Disk {
    ghost call = { λ disk. disk.tag };

    fn call(&self) -> u64 {
        self.tag
    }
}
