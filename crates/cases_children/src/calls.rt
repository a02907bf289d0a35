//! The calls by their names.
use crate::asked::ask;
use crate::shown::{refusal, reply_text};
use bosh_base::{Answer, Call, Name, Owner};
use bosh_yaml::Node;
use cases_given::{Calls, Case, CaseFault, Outcome, both, bytes_of, field, there};
use cases_words::of_words;
use cpi_proc::{Request, read_reply, read_request, write_request};
use std::alloc::Global;
use std::rt::Clock;
use std::time::Duration;

/// The calls on requests, replies and ports.
pub struct Children;

impl Calls for Children {
    fn answer(&self, case: &Case<'_>) -> Result<Outcome, CaseFault> {
        let Case { alloc, given, .. } = *case;
        match case.call {
            "wire.read_request" => read(alloc, given),
            "wire.write_request" => write(alloc, given),
            "wire.read_reply" => told(alloc, given),
            "wire.write_reply" => reply(alloc, given),
            "wire.ask" => ask(alloc, given),
            _ => Err(CaseFault::NoSuchCall),
        }
    }

    fn time(
        &self,
        _clock: &impl Clock,
        _case: &Case<'_>,
        _rounds: u32,
    ) -> Result<Duration, CaseFault> {
        Err(CaseFault::NoSuchCall)
    }
}

fn text_of(alloc: Global, request: &Request) -> Result<Outcome, CaseFault> {
    match write_request(alloc, request) {
        Ok(text) => Ok(Outcome::gives(text)),
        Err(fault) => refusal(alloc, &fault),
    }
}

fn read_in(alloc: Global, bytes: &[u8]) -> Result<Outcome, CaseFault> {
    match read_request(alloc, bytes) {
        Ok(request) => text_of(alloc, &request),
        Err(fault) => refusal(alloc, &fault),
    }
}

// The text of the request that bytes are.
fn read(alloc: Global, given: &Node) -> Result<Outcome, CaseFault> {
    let bytes = bytes_of(alloc, given)?;
    read_in(alloc, bytes.as_slice())
}

fn context_of(alloc: Global, given: &Node) -> Result<(Name, Owner), CaseFault> {
    both(field(alloc, given, "dep"), field(alloc, given, "owner"))
}

/// The request with a number, an owner, a deployment and a call.
pub(crate) fn request_of(alloc: Global, given: &Node) -> Result<Request, CaseFault> {
    let n: u64 = field(alloc, given, "n")?;
    let call = of_words(alloc, there(given, "call")?);
    let ((dep, owner), call) = both(context_of(alloc, given), call)?;
    Ok(Request {
        n,
        owner,
        dep,
        call,
    })
}

// The text of a request that is given by its parts.
fn write(alloc: Global, given: &Node) -> Result<Outcome, CaseFault> {
    let request = request_of(alloc, given)?;
    text_of(alloc, &request)
}

fn two_of(node: &Node) -> Result<(&Node, &Node), CaseFault> {
    let Node::List(items) = node else {
        return Err(CaseFault::Form);
    };
    let [first, second] = items.as_slice() else {
        return Err(CaseFault::Form);
    };
    Ok((first, second))
}

fn replied(alloc: Global, call: &Call, answer: &Answer) -> Result<Outcome, CaseFault> {
    Ok(Outcome::gives(reply_text(alloc, call, answer)?))
}

fn told_of(alloc: Global, call: &Call, bytes: &[u8]) -> Result<Outcome, CaseFault> {
    match read_reply(alloc, call, bytes) {
        Ok(answer) => replied(alloc, call, &answer),
        Err(fault) => refusal(alloc, &fault),
    }
}

// What bytes say as a reply to a call, as the text of that reply.
fn told(alloc: Global, given: &Node) -> Result<Outcome, CaseFault> {
    let (call, bytes) = two_of(given)?;
    let bytes = bytes_of(alloc, bytes)?;
    let call: Call = of_words(alloc, call)?;
    told_of(alloc, &call, bytes.as_slice())
}

fn reply_for(alloc: Global, call: &Call, answer: &Node) -> Result<Outcome, CaseFault> {
    let answer: Answer = of_words(alloc, answer)?;
    replied(alloc, call, &answer)
}

// The text of an answer to a call.
fn reply(alloc: Global, given: &Node) -> Result<Outcome, CaseFault> {
    let (call, answer) = two_of(given)?;
    let call: Call = of_words(alloc, call)?;
    reply_for(alloc, &call, answer)
}
