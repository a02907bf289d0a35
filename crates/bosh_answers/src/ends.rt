//! How tasks that have ended are told.
ghost use Rattle.std.specs.Prelude.{◌≡◌, IfOk};
ghost use Rattle.std.specs.Option.{option_copied};
ghost use Rattle.std.specs.Result.{result_map_both};
ghost use Rattle.bosh_answers.specs.Ends.{end_of, told_end};
ghost use Rattle.bosh_base.specs.declared.reply.Reply.TheVariants as replies;

use crate::{AnswerFault, refused};
use bosh_asks::BookFault;
use bosh_base::{Copyable, FailedCall, Method, Owner, Reply, TaskEnd};
use bosh_records::Records;
use std::alloc::Global;

/// The end of a task, where it has ended.
pub fn end_of(records: &Records, task: u64) -> Option<&TaskEnd>
    ensures { option_copied result ≡ end_of records.now task }
{
    let row = records.task(task)?;
    row.end.as_ref()
}

fn failed_call(
    alloc: Global,
    task: u64,
    n: u64,
    method: Method,
    owner: &Owner,
) -> Result<FailedCall, AnswerFault>
    ensures { IfOk result (λ call. call ≡ record { task = task; n = n; method = method; owner = owner.now }) }
{
    Ok(FailedCall {
        task,
        n,
        method,
        owner: owner.copy(alloc)?,
    })
}

fn failed(call: Result<FailedCall, AnswerFault>) -> Result<Reply, AnswerFault>
    ensures { result ≡ result_map_both replies.TaskFailed (λ fault. fault) call }
{
    match call {
        Ok(call) => Ok(Reply::TaskFailed(call)),
        Err(fault) => Err(fault),
    }
}

fn gone(call: Result<FailedCall, AnswerFault>) -> Result<Reply, AnswerFault>
    ensures { result ≡ result_map_both replies.TaskGone (λ fault. fault) call }
{
    match call {
        Ok(call) => Ok(Reply::TaskGone(call)),
        Err(fault) => Err(fault),
    }
}

/// How a task is told that has ended so. One that was interrupted is told as a stop of the director is.
pub fn told_end(alloc: Global, task: u64, end: &TaskEnd) -> Result<Reply, AnswerFault>
    ensures { IfOk result (λ reply. reply ≡ told_end task end.now) }
{
    match end {
        TaskEnd::Finished => Ok(Reply::TaskFinished(task)),
        TaskEnd::Interrupted => refused(alloc, BookFault::Stopped),
        TaskEnd::Fault { n, method, owner } => {
            failed(failed_call(alloc, task, *n, *method, owner))
        }
        TaskEnd::Gone { n, method, owner } => gone(failed_call(alloc, task, *n, *method, owner)),
    }
}
