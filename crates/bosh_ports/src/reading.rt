// A reader as a source.
ghost use Rattle.std.specs.Prelude.{◌≡◌};

use crate::fault_count::FaultCount;
use crate::retry::read_once;
use crate::{Source, Taken};
use std::io::Read;
use std::marker::Model;

/// A reader as a source. What it has yet to give is told where the reader's is, as of bytes in memory.
#[derive(Drop)]
pub struct Reading<R: Read> {
    reader: R,
    faults: FaultCount,
}

impl<R: Read> Model for Reading<R> {
    ghost use Rattle.bosh_ports.specs.Streams.{ReadingState};

    ghost Value = { ReadingState R };

    ghost view = { λ s. record { reader = s.reader; faults = s.faults } };
}

impl<R: Read> Reading<R> {
    pub fn new(reader: R) -> Reading<R>
        ensures { result ≡ record { reader = reader; faults = 0 } }
    {
        Reading {
            reader,
            faults: FaultCount::new(),
        }
    }
}

impl<R: Read> Source for Reading<R> {
    ghost left = { λ s. R.remaining s.reader };

    ghost faults = { λ s. s.faults };

    fn faults(&self) -> u64 {
        self.faults.count()
    }

    fn take(&mut self, buf: &mut [u8]) -> Taken {
        match read_once(&mut self.reader, buf) {
            Ok(0) => Taken::End,
            Ok(count) => Taken::Bytes(count),
            Err(error) => {
                self.faults.note(error);
                Taken::Failed
            }
        }
    }
}
