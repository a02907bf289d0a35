//! The calls that bring an instance to where it is wanted, one after the other.
use crate::given::{asked, want_and_row, where_memory};
use crate::questions::next_call;
use crate::shown::{DisksTold, RowTold, StepTold};
use bosh_base::{Answer, Call, DiskRow, GoalRow, Row, Seq};
use bosh_rows::{Step, after, begin, next, stands, update_done};
use bosh_yaml::Node;
use cases_given::{CaseFault, Outcome, field, items, word_of};
use cases_words::{Told, whole};
use std::alloc::Global;
use std::fmt;

// Adds what stands between the bars of a walk.
fn add<T: fmt::Display>(alloc: Global, walk: &mut String, part: &T) -> Result<(), CaseFault> {
    if !walk.is_empty() {
        walk.push_str(" | ")?;
    }
    let part = format!(in alloc; "{part}")?;
    Ok(walk.push_str(part.as_str())?)
}

fn answer_call(
    alloc: Global,
    row: &mut Row,
    n: u64,
    call: &Call,
    answer: &str,
) -> Result<(), CaseFault> {
    where_memory(begin(alloc, row, n, call))?;
    let answer: Answer = whole(alloc, answer)?;
    where_memory(after(alloc, row, n, call, &answer))
}

fn tell_call(
    alloc: Global,
    walk: &mut String,
    row: &mut Row,
    n: u64,
    call: &Call,
    answer: &str,
) -> Result<(), CaseFault> {
    add(alloc, walk, &Told(call))?;
    answer_call(alloc, row, n, call, answer)
}

// Makes the call of the next step, which has this answer. The call is dropped by name, which proves quickly.
fn make_call(
    alloc: Global,
    walk: &mut String,
    want: Option<&GoalRow>,
    row: &mut Row,
    n: u64,
    answer: &str,
) -> Result<(), CaseFault> {
    let call = next_call(alloc, want, row)?;
    let told = tell_call(alloc, walk, row, n, &call, answer);
    drop(call);
    told
}

fn make_calls(
    alloc: Global,
    walk: &mut String,
    want: Option<&GoalRow>,
    row: &mut Row,
    first: u64,
    answers: &[Node],
) -> Result<(), CaseFault> {
    let mut n = first;
    for answer in answers {
        make_call(alloc, walk, want, row, n, word_of(answer)?)?;
        n = n.saturating_add(1);
    }
    Ok(())
}

fn add_left(alloc: Global, walk: &mut String, left: &[DiskRow]) -> Result<(), CaseFault> {
    if left.is_empty() {
        return Ok(());
    }
    add(alloc, walk, &"left")?;
    add(alloc, walk, &DisksTold(left))
}

fn finish(
    alloc: Global,
    walk: &mut String,
    want: &GoalRow,
    row: &mut Row,
) -> Result<(), CaseFault> {
    let left: Seq<DiskRow> = where_memory(update_done(alloc, row, want))?;
    add_left(alloc, walk, left.as_slice())
}

fn add_step(alloc: Global, walk: &mut String, step: Step) -> Result<(), CaseFault> {
    add(alloc, walk, &"then")?;
    add(alloc, walk, &StepTold(step))
}

// What is left to be done, or what the end of the update leaves.
fn rest(
    alloc: Global,
    walk: &mut String,
    want: Option<&GoalRow>,
    row: &mut Row,
) -> Result<(), CaseFault> {
    match (next(want, row), want) {
        (Some(step), _) => add_step(alloc, walk, step),
        (None, Some(want)) => finish(alloc, walk, want, row),
        (None, None) => Ok(()),
    }
}

fn end(
    alloc: Global,
    walk: &mut String,
    want: Option<&GoalRow>,
    row: &mut Row,
) -> Result<(), CaseFault> {
    rest(alloc, walk, want, row)?;
    add(alloc, walk, &RowTold(row))?;
    match stands(want, row) {
        true => add(alloc, walk, &"stands"),
        false => Ok(()),
    }
}

fn walk(
    alloc: Global,
    walk: &mut String,
    want: Option<&GoalRow>,
    row: &mut Row,
    given: &Node,
) -> Result<(), CaseFault> {
    let n = field(alloc, given, "n")?;
    make_calls(alloc, walk, want, row, n, items(given, "answers")?)?;
    end(alloc, walk, want, row)
}

fn walk_text(
    alloc: Global,
    want: Option<&GoalRow>,
    row: &mut Row,
    given: &Node,
) -> Result<Outcome, CaseFault> {
    let mut text = String::new(alloc);
    walk(alloc, &mut text, want, row, given)?;
    Ok(Outcome::gives(text.into_bytes()))
}

/// The calls of an instance, each by the next step, with these answers and numbers from `n` on; then, where no step is
/// left, the disks that it leaves as its update is done, and else the step; the row, and whether it stands.
pub(crate) fn walked(alloc: Global, given: &Node) -> Result<Outcome, CaseFault> {
    asked(want_and_row(alloc, given), |it| {
        walk_text(alloc, it.0.as_ref(), &mut it.1, given)
    })
}
