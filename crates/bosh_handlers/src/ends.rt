//! Replies to what the site was asked.
ghost use Rattle.std.specs.Prelude.{◌≡◌, IfOk, Some, option_map};
ghost use Rattle.bosh_base.specs.declared.reply.Reply.TheVariants.{Refused};
ghost use Rattle.bosh_answers.specs.Ends.{stopped_reply, told_halt};
ghost use Rattle.bosh_desk.specs.SiteFaults.{site_told};

use bosh_answers::{AnswerFault, refused, replied};
use bosh_base::{Cause, Reply};
use bosh_book::BookFault;
use bosh_desk::refusal_of;
use bosh_world::SiteFault;
use std::alloc::Global;

/// The reply that tells why the site did not do what it was asked.
pub fn refused_by_site(alloc: Global, fault: SiteFault) -> Result<Reply, AnswerFault>
    ensures { IfOk result (λ reply. option_map Refused (site_told fault) ≡ Some reply) }
{
    let reply = replied(refusal_of(alloc, &fault));
    drop(fault);
    reply
}

/// The refusal of a site that has halted.
pub fn stopped(alloc: Global) -> Result<Reply, AnswerFault>
    ensures { IfOk result (λ reply. reply ≡ stopped_reply) }
{
    refused(alloc, BookFault::Stopped)
}

/// The reply of a task that a halt left without an end.
pub(crate) fn halted_by(alloc: Global, cause: Cause) -> Result<Reply, AnswerFault>
    ensures { IfOk result (λ reply. reply ≡ told_halt cause) }
{
    match cause {
        Cause::Stop => stopped(alloc),
        Cause::Store => refused(alloc, BookFault::StoreFault),
        Cause::CloudStore => refused_by_site(alloc, SiteFault::CloudStore),
    }
}
