// A source in memory, for tests.
ghost use Rattle.std.specs.Prelude.{◌≡◌, ◌<◌, ◌≤◌, Some, length};
ghost use Rattle.bosh_ports.specs.Faults.{NeverFalls};
ghost use Rattle.bosh_ports.specs.MemSource.{AnswersInTurn, source_after};
ghost use Rattle.bosh_ports.specs.Source.{FitsBuffer, FailsByCount, Moves};

use crate::failing::count_down;
use crate::piece::{fill, rest, share};
use crate::{Source, Taken};
use std::marker::Model;

/// Gives the bytes that it was made of, a piece at a time, and fails one call.
#[derive(Drop)]
pub struct MemSource {
    bytes: Vec<u8>,
    given: usize,
    piece: usize,
    failing: Option<u64>,
    faults: u64,
}

impl Model for MemSource {
    ghost use Rattle.std.specs.Prelude.{◌≤◌, drop, vec_len};
    ghost use Rattle.bosh_ports.specs.MemSource.{SourceState};

    ghost Value = { SourceState };

    ghost view = { λ s. record {
      left = drop s.given s.bytes.items;
      piece = s.piece;
      failing = s.failing;
      faults = s.faults;
    } };

    ghost invariant = { λ s. (s.given ≤ vec_len s.bytes) × (1 ≤ s.piece) };
}

impl MemSource {
    /// A source of these bytes that gives at most `piece` of them a call and fails call number `fail`, counted from 1,
    /// where 0 is no call.
    pub fn new(bytes: Vec<u8>, piece: usize, fail: Option<u64>) -> MemSource
        requires { 1 ≤ piece }
        ensures { result ≡ record { left = bytes.items; piece = piece; failing = fail; faults = 0 } }
    {
        MemSource {
            bytes,
            given: 0,
            piece,
            failing: fail,
            faults: 0,
        }
    }
}

impl Source for MemSource {
    ghost left = { λ s. Some s.left };

    ghost faults = { λ s. s.faults };

    fn faults(&self) -> u64 {
        self.faults
    }

    fn take(&mut self, buf: &mut [u8]) -> Taken
        requires { 0 < length buf.old }
        ensures turn { AnswersInTurn self.old (length buf.old) result }
        ensures state { self.new ≡ source_after self.old result }
        ensures fits { FitsBuffer result buf.new }
        ensures moved { Moves result self.old.left (Some self.new.left) buf.new }
        ensures count { NeverFalls self.old.faults self.new.faults }
        ensures failed { FailsByCount result self.old.faults self.new.faults }
    {
        let fails = self.failing == Some(1);
        self.failing = count_down(self.failing);
        if fails {
            self.faults = self.faults.saturating_add(1);
            return Taken::Failed;
        }
        let left = rest(&self.bytes, self.given);
        if left.is_empty() {
            return Taken::End;
        }
        let count = share(self.piece, buf.len(), left.len());
        fill(buf, left, count);
        self.given += count;
        Taken::Bytes(count)
    }
}
