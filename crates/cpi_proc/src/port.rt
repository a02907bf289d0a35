ghost use Rattle.std.specs.Prelude.{◌≡◌, IfSome, Err};
ghost use Rattle.bosh_base.specs.Call.{method_of};
ghost use Rattle.bosh_ports.specs.Faults.{NeverFalls, count_with};
ghost use Rattle.cpi_proc.specs.Port.{AnswersOutcome, AsksOnce, FailsByCount, PortState, refused_after};
ghost use Rattle.cpi_proc.specs.Request.{wire};

use crate::fault::PortFault;
use crate::reply_reader::read_reply;
use crate::request::Request;
use crate::request_writer::write_request;
use bosh_base::{Answer, Call};
use bosh_spawner::{SpawnFault, Spawner};
use std::alloc::Global;
use std::marker::Model;

/// A port to the programs of a cloud provider interface: each request is asked of a child of its own, once.
#[derive(Drop)]
pub struct ProcPort<S> {
    spawner: S,
    refused: u64,
}

impl<S> Model for ProcPort<S> {
    ghost use Rattle.cpi_proc.specs.Port.{PortState};

    ghost Value = { PortState S };

    ghost view = { λ port. record { spawner = port.spawner; refused = port.refused } };
}

impl<S: Spawner> ProcPort<S> {
    pub fn new(spawner: S) -> ProcPort<S>
        ensures { result ≡ record { spawner = spawner; refused = 0 } }
    {
        ProcPort {
            spawner,
            refused: 0,
        }
    }

    /// How often the spawner failed and how often an output was no answer, up to the last number of 64 bits.
    pub fn faults(&self) -> u64
        ensures { result ≡ count_with (S.faults self.now.spawner) self.now.refused }
    {
        self.spawner.faults().saturating_add(self.refused)
    }

    pub fn spawner(&self) -> &S
        ensures { result.now ≡ self.now.spawner }
    {
        &self.spawner
    }

    // Counts an answer that is none.
    fn note(&mut self, answer: &Result<Answer, PortFault>)
        ensures { self.new ≡ record self.old { refused = refused_after answer.now self.old.refused } }
    {
        match answer {
            Err(PortFault::NotAReply | PortFault::Refused { .. } | PortFault::TooLong) => {
                self.refused = self.refused.saturating_add(1);
            }
            _ => {}
        }
    }

    // What the outcome of a text comes to.
    fn answer(&mut self, alloc: Global, call: &Call, text: &[u8]) -> Result<Answer, PortFault>
        ensures asked { IfSome (S.asked self.old.spawner) (λ before. AsksOnce result before text.now (S.asked self.new.spawner)) }
        ensures told { IfSome (S.outcomes self.old.spawner) (λ before. AnswersOutcome (method_of call.now) result before (S.outcomes self.new.spawner)) }
        ensures refused { self.new.refused ≡ self.old.refused }
        ensures count { NeverFalls (S.faults self.old.spawner) (S.faults self.new.spawner) }
        ensures failed { FailsByCount result (S.faults self.old.spawner) (S.faults self.new.spawner) }
    {
        match self.spawner.ask(alloc, text) {
            Ok(output) => read_reply(alloc, call, output.as_slice()),
            Err(SpawnFault::Failed) => Err(PortFault::SpawnFault),
            Err(SpawnFault::TooLong) => Err(PortFault::TooLong),
            Err(SpawnFault::Memory) => Err(PortFault::Memory),
        }
    }

    /// Asks for a call once, and never again: a child is started that gets the text of the request. `SpawnFault` where there is
    /// no output, `TooLong` where it is too long, and otherwise what `read_reply` says of it. After want of memory the call may
    /// have been asked.
    pub fn ask(&mut self, alloc: Global, request: &Request) -> Result<Answer, PortFault>
        ensures asked { IfSome (S.asked self.old.spawner) (λ before. AsksOnce result before (wire request.now) (S.asked self.new.spawner)) }
        ensures told { IfSome (S.outcomes self.old.spawner) (λ before. AnswersOutcome (method_of request.now.call) result before (S.outcomes self.new.spawner)) }
        ensures refused { self.new.refused ≡ refused_after result self.old.refused }
        ensures count { NeverFalls (S.faults self.old.spawner) (S.faults self.new.spawner) }
        ensures failed { FailsByCount result (S.faults self.old.spawner) (S.faults self.new.spawner) }
    {
        let Ok(text) = write_request(alloc, request) else {
            return Err(PortFault::Memory);
        };
        let answer = self.answer(alloc, &request.call, text.as_slice());
        self.note(&answer);
        answer
    }
}
