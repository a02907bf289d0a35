// A writer as a sink.
ghost use Rattle.std.specs.Prelude.{◌≡◌};

use crate::fault_count::FaultCount;
use crate::retry::write_once;
use crate::{Put, Sink};
use std::io::Write;
use std::marker::Model;

/// A writer as a sink. What was written is told where the writer's content is. It never flushes: a writer that keeps
/// bytes back is no sink.
#[derive(Drop)]
pub struct Writing<W: Write> {
    writer: W,
    faults: FaultCount,
}

impl<W: Write> Model for Writing<W> {
    ghost use Rattle.bosh_ports.specs.Streams.{WritingState};

    ghost Value = { WritingState W };

    ghost view = { λ s. record { writer = s.writer; faults = s.faults } };
}

impl<W: Write> Writing<W> {
    pub fn new(writer: W) -> Writing<W>
        ensures { result ≡ record { writer = writer; faults = 0 } }
    {
        Writing {
            writer,
            faults: FaultCount::new(),
        }
    }
}

impl<W: Write> Sink for Writing<W> {
    ghost written = { λ s. W.contents s.writer };

    ghost faults = { λ s. s.faults };

    fn faults(&self) -> u64 {
        self.faults.count()
    }

    fn put(&mut self, piece: &[u8]) -> Put {
        match write_once(&mut self.writer, piece) {
            Ok(count) => Put::Took(count),
            Err(error) => {
                self.faults.note(error);
                Put::Failed
            }
        }
    }
}
