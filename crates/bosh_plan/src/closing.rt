ghost use Rattle.std.specs.Prelude.{◌≡◌, IfOk};
ghost use Rattle.std.specs.Option.{option_and_then, option_copied};
ghost use Rattle.bosh_records.specs.Readers.{work_at};
ghost use Rattle.bosh_plan.specs.Closed.{end_after, offers_after};

use bosh_base::{Copyable, Failure, Offer, Seq, TaskEnd, TaskError};
use bosh_records::{Records, RecordsFault};

/// What a deployment offers once a task is done: what its goal does, after a deploy.
pub fn plan_done(records: &Records, task: u64) -> Result<Seq<Offer>, RecordsFault>
    ensures { IfOk result (λ offers. offers ≡ offers_after records.now task) }
{
    match records.deployed_by(task) {
        Some(row) => Ok(row.goal.offers.copy(records.alloc)?),
        None => Ok(Seq::new(records.alloc)),
    }
}

/// How a task ends without being done.
pub fn plan_error(records: &Records, error: &TaskError) -> Result<TaskEnd, RecordsFault>
    ensures { IfOk result (λ end. end ≡ end_after records.now error.now) }
{
    if let Failure::Interrupted = error.cause {
        return Ok(TaskEnd::Interrupted);
    }
    match failed_by(records, error.task) {
        Some(end) => Ok(end.copy(records.alloc)?),
        None => Ok(TaskEnd::Interrupted),
    }
}

fn failed_by(records: &Records, task: u64) -> Option<&TaskEnd>
    ensures { option_copied result ≡ option_and_then (λ work. work.failed) (work_at records.now task) }
{
    records.work(task)?.failed.as_ref()
}
