// A place that bytes come from, in pieces.
ghost use Rattle.std.specs.Prelude.{◌≡◌, ℕ, ◌<◌, List, Option, IfSome, length};
ghost use Rattle.bosh_ports.specs.Faults.{NeverFalls};
ghost use Rattle.bosh_ports.specs.Source.{FitsBuffer, FailsByCount, Moves};

/// What one call of `take` answers.
#[derive(Clone, Copy, Debug, PartialEq, Eq)]
pub enum Taken {
    /// That many bytes stand at the front of the buffer.
    Bytes(usize),
    /// Nothing is left.
    End,
    /// The source failed, and the call may be made again.
    Failed,
}

/// A place that bytes come from, in pieces.
pub trait Source {
    /// The bytes that it has yet to give, where it tells them.
    ghost left: { Self → Option (List ℕ) };

    /// How often it has failed.
    ghost faults: { Self → ℕ };

    /// How often it has failed, up to the last number of 64 bits.
    fn faults(&self) -> u64
        ensures { result ≡ faults self.now };

    /// Moves the next bytes to the front of the buffer, as many as it pleases. A read of no bytes is the end.
    fn take(&mut self, buf: &mut [u8]) -> Taken
        requires { 0 < length buf.old }
        ensures fits { FitsBuffer result buf.new }
        ensures moved { IfSome (left self.old) (λ before. Moves result before (left self.new) buf.new) }
        ensures count { NeverFalls (faults self.old) (faults self.new) }
        ensures failed { FailsByCount result (faults self.old) (faults self.new) };
}
