//! Faults in words, and answers as the texts of replies.
use bosh_base::{Answer, Call, Text};
use cases_given::{CaseFault, Outcome, words_of};
use cpi_proc::{PortFault, can_reply, write_reply};
use std::alloc::Global;

fn refused_text(alloc: Global, kind: &Text) -> Result<Vec<u8>, CaseFault> {
    let mut text = Vec::from_slice(alloc, b"Refused ")?;
    text.extend_from_slice(kind.as_slice())?;
    Ok(text)
}

/// A fault, as `NotAReply` or `Refused KIND`.
pub(crate) fn fault_text(alloc: Global, fault: &PortFault) -> Result<Vec<u8>, CaseFault> {
    match fault {
        PortFault::Refused { kind } => refused_text(alloc, kind),
        PortFault::Memory => Err(CaseFault::Memory),
        fault => words_of(alloc, fault),
    }
}

/// That a fault refused what was given.
pub(crate) fn refusal(alloc: Global, fault: &PortFault) -> Result<Outcome, CaseFault> {
    Ok(Outcome::refuses(fault_text(alloc, fault)?))
}

/// The text of a reply, or `CannotReply`.
pub(crate) fn reply_text(
    alloc: Global,
    call: &Call,
    answer: &Answer,
) -> Result<Vec<u8>, CaseFault> {
    if !can_reply(call, answer) {
        return Ok(Vec::from_slice(alloc, b"CannotReply")?);
    }
    match write_reply(alloc, call, answer) {
        Ok(text) => Ok(text),
        Err(_) => Err(CaseFault::Memory),
    }
}

/// What a call on a port came to: the text of a reply, or a fault.
pub(crate) fn answer_text(
    alloc: Global,
    call: &Call,
    answer: &Result<Answer, PortFault>,
) -> Result<Vec<u8>, CaseFault> {
    match answer {
        Ok(answer) => reply_text(alloc, call, answer),
        Err(fault) => fault_text(alloc, fault),
    }
}
