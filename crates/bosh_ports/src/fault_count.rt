// How often a reader or a writer has failed.
ghost use Rattle.std.specs.Prelude.{◌≡◌, ◌≢◌};
ghost use Rattle.std.specs.IoError.{error_kind};
ghost use Rattle.bosh_ports.specs.Faults.{NeverFalls, count_with};

use std::io::{Error, ErrorKind};
use std::marker::Model;

/// How often a reader or a writer has failed, up to the last number of 64 bits. Nothing counts but an error, and never
/// an interruption.
#[derive(Drop)]
pub(crate) struct FaultCount {
    count: u64,
}

impl Model for FaultCount {
    ghost use Rattle.std.specs.Prelude.{ℕ};

    ghost Value = { ℕ };

    ghost view = { λ faults. faults.count };
}

impl FaultCount {
    pub(crate) fn new() -> FaultCount
        ensures { result ≡ 0 }
    {
        FaultCount { count: 0 }
    }

    pub(crate) fn count(&self) -> u64
        ensures { result ≡ self.now }
    {
        self.count
    }

    pub(crate) fn note(&mut self, _error: Error)
        requires { error_kind _error ≢ ErrorKind.Interrupted }
        ensures one_more { self.new ≡ count_with self.old 1 }
        ensures never_falls { NeverFalls self.old self.new }
    {
        self.count = self.count.saturating_add(1);
    }
}
