//! The lock of a deployment, and that of the tasks that delete disks: an open task has it.
ghost use Rattle.std.specs.Prelude.{◌≡◌, IfErr, None, OnOk, Some, ℕ};
ghost use Rattle.std.specs.Option.{option_copied};
ghost use Rattle.bosh_asks.specs.Recorded.{held_by, holder};
ghost use Rattle.bosh_asks.specs.declared.fault.BookFault.TheVariants.{Locked};

use crate::BookFault;
use bosh_base::{Name, TaskRow};
use std::collections::btree_map::Iter;

fn held_by(row: Option<&TaskRow>, dep: Option<&Name>) -> Option<u64>
    ensures { result ≡ held_by (option_copied dep.entry) (option_copied row.entry) }
{
    match row {
        Some(row) if row.end.is_none() && row.dep.as_ref() == dep => Some(row.task),
        _ => None,
    }
}

// The open task that has the lock.
fn holder(tasks: Iter<'_, u64, Option<TaskRow>>, dep: Option<&Name>) -> Option<u64>
    ensures { result ≡ holder (option_copied dep.entry) tasks.entry }
{
    for (_, row) in tasks {
        if let Some(task) = held_by(row.as_ref(), dep) {
            return Some(task);
        }
    }
    None
}

/// That no open task of these has a lock.
pub(crate) fn check_free(
    tasks: Iter<'_, u64, Option<TaskRow>>,
    dep: Option<&Name>,
) -> Result<(), BookFault>
    ensures free { OnOk result (holder (option_copied dep.entry) tasks.entry ≡ None) }
    ensures locked { IfErr result (λ fault. (task : ℕ) × (holder (option_copied dep.entry) tasks.entry ≡ Some task)
        × (fault ≡ Locked task)) }
{
    match holder(tasks, dep) {
        Some(task) => Err(BookFault::Locked { task }),
        None => Ok(()),
    }
}
