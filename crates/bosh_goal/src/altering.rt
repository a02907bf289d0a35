//! The row of an instance, changed.
ghost use Rattle.std.specs.Prelude.{◌≡◌, IfOk, map};
ghost use Rattle.bosh_goal.specs.Anew.{changed_row, is_row_of, row_anew};

use crate::Change;
use bosh_base::{CopyFault, Copyable, GoalRow, Inst, Seq};
use std::alloc::Global;

fn changed(row: GoalRow, change: Change, last_call: u64) -> GoalRow
    ensures { result ≡ changed_row change last_call row }
{
    match change {
        Change::Fresh => GoalRow {
            fresh_after: last_call,
            ..row
        },
        Change::To(state) => GoalRow { state, ..row },
        Change::Same => row,
    }
}

fn row_anew(
    alloc: Global,
    inst: &Inst,
    change: Change,
    last_call: u64,
    row: &GoalRow,
) -> Result<GoalRow, CopyFault>
    ensures { IfOk result (λ it. it ≡ row_anew inst.now change last_call row.now) }
{
    let copy = row.copy(alloc)?;
    if row.inst == *inst {
        Ok(changed(copy, change, last_call))
    } else {
        Ok(copy)
    }
}

/// The rows of a goal, of which that of an instance is changed.
pub(crate) fn rows_anew(
    alloc: Global,
    inst: &Inst,
    change: Change,
    last_call: u64,
    rows: &[GoalRow],
) -> Result<Seq<GoalRow>, CopyFault>
    ensures { IfOk result (λ all. all ≡ map (row_anew inst.now change last_call) rows.now) }
{
    let mut all = Vec::new(alloc);
    for row in rows {
        all.push(row_anew(alloc, inst, change, last_call, row)?)?;
    }
    Ok(Seq::from(all))
}
