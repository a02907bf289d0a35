ghost use Rattle.std.specs.Prelude.{◌≡◌, ◌≤◌, [], false, IfErr, IfOk, MatchOption, None, Some};
ghost use Rattle.bosh_input.specs.Ended.{IsFixed, IsGiven, ended_by};
ghost use Rattle.bosh_input.specs.Reading.{FailsByCount, IsAtEnd, IsEvent, Reads};

use crate::reader::Reader;
use crate::request::judged;
use crate::{InputFault, Request};
use bosh_ports::Source;
use std::alloc::{AllocError, Global};
use std::marker::Model;

/// How an input came to its end.
#[derive(Clone, Copy, Debug, PartialEq, Eq)]
pub(crate) enum Ended {
    /// It has no further command.
    Whole,
    /// An event ended it.
    Stopped(InputFault),
}

/// The commands of a source, which is read as far as the next command asks for.
#[derive(Drop)]
pub struct Input {
    alloc: Global,
    reader: Reader,
    ended: Option<Ended>,
}

impl Model for Input {
    ghost use Rattle.bosh_input.specs.Ended.{View};

    ghost Value = { View };

    ghost view = { λ input. record { reader = input.reader; ended = input.ended } };
}

impl Input {
    /// Before the first byte is read.
    pub fn new(alloc: Global) -> Result<Input, AllocError>
        ensures { IfOk result (λ input. input ≡ record { reader = record { front = record { bytes = []; is_over = false; is_ended = false }; at = 0; given = 0 }; ended = None }) }
    {
        Ok(Input {
            alloc,
            reader: Reader::new(alloc)?,
            ended: None,
        })
    }

    /// How many commands were given.
    pub fn given(&self) -> u32
        ensures count { result ≡ self.now.reader.given }
        ensures few { result ≤ 200 }
    {
        self.reader.given()
    }

    /// The next command, or none at the end of the input. After the end and after a fault the answer stays the same, and
    /// nothing is read.
    #[tactic(auto, using(crate::proofs::ReadsLemmas::reads_none))]
    pub fn next<S: Source>(&mut self, source: &mut S) -> Result<Option<Request>, InputFault>
        ensures reads { Reads S.left S.faults source.old source.new self.old.reader.front self.new.reader.front }
        ensures failed { self.old.ended ≡ None → FailsByCount result (S.faults source.old) (S.faults source.new) }
        ensures given { self.old.ended ≡ None → IfOk result (λ request. MatchOption request (IsAtEnd self.new.reader.front self.old.reader.at) (IsGiven self.old.reader self.new.reader)) }
        ensures refused { self.old.ended ≡ None → IfErr result (IsEvent self.old.reader self.new.reader.front) }
        ensures ended { self.old.ended ≡ None → self.new.ended ≡ ended_by result }
        ensures fixed { IsFixed self.old.ended result ((self.new ≡ self.old) × (source.new ≡ source.old)) }
    {
        match self.ended {
            Some(Ended::Whole) => Ok(None),
            Some(Ended::Stopped(fault)) => Err(fault),
            None => self.go_on(source),
        }
    }

    // The next command of an input that has not ended.
    fn go_on<S: Source>(&mut self, source: &mut S) -> Result<Option<Request>, InputFault>
        requires { self.old.ended ≡ None }
        ensures reads { Reads S.left S.faults source.old source.new self.old.reader.front self.new.reader.front }
        ensures failed { FailsByCount result (S.faults source.old) (S.faults source.new) }
        ensures given { IfOk result (λ request. MatchOption request (IsAtEnd self.new.reader.front self.old.reader.at) (IsGiven self.old.reader self.new.reader)) }
        ensures refused { IfErr result (IsEvent self.old.reader self.new.reader.front) }
        ensures ended { self.new.ended ≡ ended_by result }
    {
        match self.reader.next(source) {
            Ok(Some(request)) => Ok(Some(judged(self.alloc, request))),
            Ok(None) => {
                self.ended = Some(Ended::Whole);
                Ok(None)
            }
            Err(fault) => {
                self.ended = Some(Ended::Stopped(fault));
                Err(fault)
            }
        }
    }
}
