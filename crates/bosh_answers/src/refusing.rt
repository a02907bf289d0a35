ghost use Rattle.std.specs.Prelude.{◌≡◌, IfOk, Some, option_map};
ghost use Rattle.std.specs.Result.{result_map_both};
ghost use Rattle.bosh_answers.specs.declared.fault.AnswerFault.TheVariants.{Memory};
ghost use Rattle.bosh_base.specs.declared.reply.Reply.TheVariants.{Refused};

use crate::AnswerFault;
use bosh_base::{Refusal, Reply};
use bosh_refusals::Refuses;
use bosh_report::ReportFault;
use std::alloc::Global;

/// The reply that is a refusal. Want of memory has none.
pub fn replied(refusal: Result<Refusal, ReportFault>) -> Result<Reply, AnswerFault>
    ensures { result ≡ result_map_both Refused (λ _. Memory) refusal }
{
    match refusal {
        Ok(refusal) => Ok(Reply::Refused(refusal)),
        Err(ReportFault::Memory) => Err(AnswerFault::Memory),
    }
}

/// The reply that tells a fault.
pub fn refused<T: Refuses + Drop>(alloc: Global, fault: T) -> Result<Reply, AnswerFault>
    ensures { IfOk result (λ reply. option_map Refused (T.told fault) ≡ Some reply) }
{
    replied(fault.refusal(alloc))
}
