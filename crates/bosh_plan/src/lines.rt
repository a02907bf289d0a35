ghost use Rattle.std.specs.Prelude.{◌≡◌, IfOk};
ghost use Rattle.bosh_plan.specs.WorkBy.{full, no_line, nothing};

use bosh_base::Seq;
use bosh_progress::Queue;
use bosh_records::RecordsFault;
use bosh_work::{Groups, Line, Work};
use std::alloc::Global;

/// Nothing is left to do of a task.
pub(crate) fn nothing(alloc: Global, task: u64) -> Work
    ensures { result ≡ nothing task }
{
    Work {
        task,
        pings: empty(alloc),
        sweep: empty(alloc),
        keys: empty(alloc),
        slots: 0,
        machines: 0,
        obsolete: empty(alloc),
        changed: Seq::new(alloc),
        groups: Groups::none(alloc),
        disks: empty(alloc),
        failed: None,
        open: 0,
    }
}

fn empty<T>(alloc: Global) -> Line<T>
    ensures { result ≡ no_line }
{
    Line {
        items: Seq::new(alloc),
        queue: Queue::empty(),
    }
}

/// Items of which all are left.
pub(crate) fn full<T: Drop>(alloc: Global, items: Vec<T>) -> Result<Line<T>, RecordsFault>
    ensures { IfOk result (λ line. line ≡ full items.items) }
{
    let queue = Queue::full(alloc, items.len())?;
    Ok(Line {
        items: Seq::from(items),
        queue,
    })
}
