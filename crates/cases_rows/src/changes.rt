//! What calls, answers and the ends of updates change in rows.
use crate::given::{asked, at, row_at, want_and_row, where_memory};
use crate::shown::{DisksTold, RowTold};
use bosh_base::{Answer, Call, DiskRow, GoalRow, Row, Seq};
use bosh_rows::{after, begin, instance_gone, update_done};
use bosh_yaml::Node;
use cases_given::{CaseFault, Outcome, both, field};
use std::alloc::Global;

fn begin_call(alloc: Global, row: &mut Row, n: u64, call: &Call) -> Result<Outcome, CaseFault> {
    where_memory(begin(alloc, row, n, call))?;
    Outcome::shown(alloc, &RowTold(row))
}

/// The row, once the call `n` began.
pub(crate) fn begun(alloc: Global, given: &Node) -> Result<Outcome, CaseFault> {
    let n = field(alloc, given, "n")?;
    let case: Result<(Call, Row), CaseFault> = both(at(alloc, given, "call"), row_at(alloc, given));
    asked(case, |it| begin_call(alloc, &mut it.1, n, &it.0))
}

fn answer_call(
    alloc: Global,
    row: &mut Row,
    n: u64,
    call: &Call,
    answer: &Answer,
) -> Result<Outcome, CaseFault> {
    where_memory(after(alloc, row, n, call, answer))?;
    Outcome::shown(alloc, &RowTold(row))
}

/// The row, once the call `n` was answered.
pub(crate) fn answered(alloc: Global, given: &Node) -> Result<Outcome, CaseFault> {
    let n = field(alloc, given, "n")?;
    let told = both(at(alloc, given, "call"), at(alloc, given, "answer"));
    let case: Result<((Call, Answer), Row), CaseFault> = both(told, row_at(alloc, given));
    asked(case, |it| {
        answer_call(alloc, &mut it.1, n, &it.0.0, &it.0.1)
    })
}

// The row, and the disks that were orphaned.
fn with_left(alloc: Global, row: &Row, left: &[DiskRow]) -> Result<Outcome, CaseFault> {
    let text = format!(in alloc; "{} | {}", RowTold(row), DisksTold(left))?;
    Ok(Outcome::gives(text.into_bytes()))
}

fn finish(alloc: Global, row: &mut Row, want: &GoalRow) -> Result<Outcome, CaseFault> {
    let left: Seq<DiskRow> = where_memory(update_done(alloc, row, want))?;
    with_left(alloc, row, left.as_slice())
}

/// The row, once its update is done, and the disks that it left.
pub(crate) fn updated(alloc: Global, given: &Node) -> Result<Outcome, CaseFault> {
    asked(want_and_row(alloc, given), |it| match &it.0 {
        Some(want) => finish(alloc, &mut it.1, want),
        None => Err(CaseFault::Form),
    })
}

/// The row of an instance that is gone, and the disks that it left.
pub(crate) fn gone(alloc: Global, given: &Node) -> Result<Outcome, CaseFault> {
    asked(row_at(alloc, given), |row| {
        let left = instance_gone(alloc, row);
        with_left(alloc, row, left.as_slice())
    })
}
