// A sink in memory, for tests.
ghost use Rattle.std.specs.Prelude.{◌≡◌, ◌<◌, ◌≤◌, [], Some, length};
ghost use Rattle.bosh_ports.specs.Failing.{IsNext};
ghost use Rattle.bosh_ports.specs.Faults.{NeverFalls};
ghost use Rattle.bosh_ports.specs.MemSink.{AnswersInTurn, sink_after};
ghost use Rattle.bosh_ports.specs.Sink.{FitsPiece, FailsByCount, written_after};

use crate::failing::count_down;
use crate::piece::share;
use crate::{Put, Sink};
use std::alloc::Global;
use std::marker::Model;

/// Keeps the bytes that it takes, a piece at a time, and fails one call. A call that finds no memory fails too, since a
/// sink has no other answer for it; `starved` tells how many did.
#[derive(Drop)]
pub struct MemSink {
    written: Vec<u8>,
    piece: usize,
    failing: Option<u64>,
    faults: u64,
    starved: u64,
}

impl Model for MemSink {
    ghost use Rattle.std.specs.Prelude.{◌≤◌, vec_capacity};
    ghost use Rattle.bosh_ports.specs.MemSink.{SinkState};

    ghost Value = { SinkState };

    ghost view = { λ s. record {
      written = s.written.items;
      piece = s.piece;
      failing = s.failing;
      faults = s.faults;
      starved = s.starved;
      room = vec_capacity s.written;
    } };

    ghost invariant = { λ s. 1 ≤ s.piece };
}

impl MemSink {
    /// An empty sink that takes at most `piece` bytes a call and fails call number `fail`, counted from 1.
    pub fn new(alloc: Global, piece: usize, fail: Option<u64>) -> MemSink
        requires { 1 ≤ piece }
        ensures { result ≡ record { written = []; piece = piece; failing = fail; faults = 0; starved = 0; room = 0 } }
    {
        MemSink {
            written: Vec::new(alloc),
            piece,
            failing: fail,
            faults: 0,
            starved: 0,
        }
    }

    /// The bytes that were written so far.
    pub fn written(&self) -> &[u8]
        ensures { result.now ≡ self.now.written }
    {
        self.written.as_slice()
    }

    /// How many of its faults were for want of memory, up to the last number of 64 bits.
    pub fn starved(&self) -> u64
        ensures { result ≡ self.now.starved }
    {
        self.starved
    }
}

impl Sink for MemSink {
    ghost written = { λ s. Some s.written };

    ghost faults = { λ s. s.faults };

    fn faults(&self) -> u64 {
        self.faults
    }

    fn put(&mut self, piece: &[u8]) -> Put
        requires { 0 < length piece.now }
        ensures fails { IsNext self.old.failing → result ≡ Put.Failed }
        ensures turn { AnswersInTurn self.old piece.now result }
        ensures state { self.new ≡ sink_after self.old piece.now result self.new.room }
        ensures fits { FitsPiece result piece.now }
        ensures written { Some self.new.written ≡ Some (written_after result self.old.written piece.now) }
        ensures count { NeverFalls self.old.faults self.new.faults }
        ensures failed { FailsByCount result self.old.faults self.new.faults }
    {
        let fails = self.failing == Some(1);
        self.failing = count_down(self.failing);
        if fails {
            self.faults = self.faults.saturating_add(1);
            return Put::Failed;
        }
        let count = share(self.piece, piece.len(), piece.len());
        if self.written.extend_from_slice(&piece[..count]).is_err() {
            self.faults = self.faults.saturating_add(1);
            self.starved = self.starved.saturating_add(1);
            return Put::Failed;
        }
        Put::Took(count)
    }
}
