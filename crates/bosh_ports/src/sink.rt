// A place that bytes go to, in pieces.
ghost use Rattle.std.specs.Prelude.{◌≡◌, ℕ, ◌<◌, List, Option, Some, IfSome, length};
ghost use Rattle.bosh_ports.specs.Faults.{NeverFalls};
ghost use Rattle.bosh_ports.specs.Sink.{FitsPiece, FailsByCount, written_after};

/// What one call of `put` answers.
#[derive(Clone, Copy, Debug, PartialEq, Eq)]
pub enum Put {
    /// That many bytes from the front of the piece are written.
    Took(usize),
    /// The sink failed and took nothing of the piece.
    Failed,
}

/// A place that bytes go to, in pieces.
pub trait Sink {
    /// The bytes that were written so far, where it tells them.
    ghost written: { Self → Option (List ℕ) };

    /// How often it has failed.
    ghost faults: { Self → ℕ };

    /// How often it has failed, up to the last number of 64 bits.
    fn faults(&self) -> u64
        ensures { result ≡ faults self.now };

    /// Writes bytes from the front of the piece, as many as it pleases. A device that takes no byte has failed.
    fn put(&mut self, piece: &[u8]) -> Put
        requires { 0 < length piece.now }
        ensures fits { FitsPiece result piece.now }
        ensures written { IfSome (written self.old)
            (λ before. written self.new ≡ Some (written_after result before piece.now)) }
        ensures count { NeverFalls (faults self.old) (faults self.new) }
        ensures failed { FailsByCount result (faults self.old) (faults self.new) };
}
