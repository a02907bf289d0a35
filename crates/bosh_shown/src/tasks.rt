ghost use Rattle.std.specs.Prelude.{◌≡◌, ◌++◌, IfOk, OnOk, option_map};
ghost use Rattle.std.specs.Option.{option_copied, option_to_list};
ghost use Rattle.bosh_records.specs.Readers.{task_at};
ghost use Rattle.bosh_shown.specs.Tasks.{task_detail, task_line, task_lines};

use bosh_base::{CopyFault, Seq, TaskDetail, TaskLine, TaskRow, copy_three};
use bosh_records::Records;
use std::alloc::Global;

fn task_line(alloc: Global, row: &TaskRow) -> Result<TaskLine, CopyFault>
    ensures { IfOk result (λ line. line ≡ task_line row.now) }
{
    let (kind, dep, end) = copy_three(&row.kind, &row.dep, &row.end, alloc)?;
    Ok(TaskLine {
        task: row.task,
        kind,
        dep,
        end,
    })
}

fn push_line(
    alloc: Global,
    row: Option<&TaskRow>,
    lines: &mut Vec<TaskLine>,
) -> Result<(), CopyFault>
    ensures { OnOk result (lines.new.items ≡ lines.old.items
        ++ option_to_list (option_map task_line (option_copied row.entry))) }
{
    if let Some(row) = row {
        lines.push(task_line(alloc, row)?)?;
    }
    Ok(())
}

/// The tasks by number. Want of memory is the one fault.
pub fn task_lines(alloc: Global, records: &Records) -> Result<Seq<TaskLine>, CopyFault>
    ensures { IfOk result (λ lines. lines ≡ task_lines records.now.tasks.places.entries) }
{
    let mut lines = Vec::new(alloc);
    for (_, row) in records.tasks() {
        push_line(alloc, row.as_ref(), &mut lines)?;
    }
    Ok(Seq::from(lines))
}

fn detail_of(alloc: Global, row: &TaskRow) -> Result<TaskDetail, CopyFault>
    ensures { IfOk result (λ detail. detail ≡ task_detail row.now) }
{
    Ok(TaskDetail {
        line: task_line(alloc, row)?,
        calls: row.calls,
        source: row.source,
    })
}

/// One task: how many calls it began, where that is known, and the digest of its manifest. None has the number of a
/// task that was not opened. Want of memory is the one fault.
pub fn task_detail(
    alloc: Global,
    records: &Records,
    task: u64,
) -> Result<Option<TaskDetail>, CopyFault>
    ensures { IfOk result (λ detail. detail ≡ option_map task_detail (task_at records.now task)) }
{
    match records.task(task) {
        Some(row) => Ok(Some(detail_of(alloc, row)?)),
        None => Ok(None),
    }
}
