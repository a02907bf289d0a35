//! The calls by their names.
use crate::examined::examined;
use crate::replies::reply;
use bosh_base::Reply;
use bosh_report::say;
use cases_given::{Calls, Case, CaseFault, Outcome};
use std::alloc::Global;
use std::rt::Clock;
use std::time::Duration;

/// The calls on replies.
pub struct Replies;

impl Calls for Replies {
    fn answer(&self, case: &Case<'_>) -> Result<Outcome, CaseFault> {
        let Case {
            alloc,
            setting,
            given,
            ..
        } = *case;
        match case.call {
            "cck.examine" => said(alloc, examined(alloc, setting, given)?),
            "report.say" => said(alloc, reply(alloc, given)?),
            _ => Err(CaseFault::NoSuchCall),
        }
    }

    fn time(
        &self,
        _clock: &impl Clock,
        _case: &Case<'_>,
        _rounds: u32,
    ) -> Result<Duration, CaseFault> {
        Err(CaseFault::NoSuchCall)
    }
}

// The text of a reply, which is let go by name: that proves quickly.
fn said(alloc: Global, reply: Reply) -> Result<Outcome, CaseFault> {
    let said = say(alloc, &reply);
    drop(reply);
    match said {
        Ok(text) => Ok(Outcome::gives(text)),
        Err(_) => Err(CaseFault::Memory),
    }
}
