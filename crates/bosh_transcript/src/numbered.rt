ghost use Rattle.std.specs.Prelude.{◌≡◌, IfErr, IfOk, MatchOption};
ghost use Rattle.bosh_transcript.specs.Carried.{EndsReading, ReadsWhole, TakesNext, TakesOthers, StopsReading};

use crate::Status;
use bosh_input::{Input, Request};
use bosh_ports::Source;
use std::alloc::Global;

/// A command that was read, and its number in the session, counted from 1.
#[derive(Drop)]
pub struct Numbered {
    pub number: u32,
    pub request: Request,
}

/// The next command of an input, or none where it has no further one. An event of the input ends the session.
pub fn next<I: Source>(input: &mut Input, source: &mut I) -> Result<Option<Numbered>, Status>
    ensures next { IfOk result (λ it. MatchOption it
        (ReadsWhole I.left I.faults input.old input.new source.old source.new)
        (TakesNext I.left I.faults input.old input.new source.old source.new)) }
    ensures event { IfErr result (StopsReading I.left I.faults input.old input.new source.old source.new) }
{
    match input.next(source) {
        Ok(Some(request)) => Ok(Some(Numbered {
            number: input.given(),
            request,
        })),
        Ok(None) => Ok(None),
        Err(fault) => Err(Status::from(fault)),
    }
}

/// The next commands of an input: as many, or those that are left.
pub fn next_commands<I: Source>(
    alloc: Global,
    count: u64,
    input: &mut Input,
    source: &mut I,
) -> Result<Vec<Numbered>, Status>
    ensures taken { IfOk result (λ them.
        TakesOthers I.left I.faults count input.old input.new source.old source.new them.items) }
    ensures event { IfErr result (EndsReading I.left I.faults count input.old input.new source.old source.new) }
{
    let mut commands = Vec::new(alloc);
    for _ in 0..count {
        match next(input, source)? {
            Some(command) => commands.push(command)?,
            None => return Ok(commands),
        }
    }
    Ok(commands)
}
