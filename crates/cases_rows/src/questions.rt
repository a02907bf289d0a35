//! What is to be done next, and whether a row stands.
use crate::given::{asked, row_at, want_and_row, where_memory};
use crate::shown::StepTold;
use bosh_base::{Call, GoalRow, Row};
use bosh_rows::{Step, call_of, has_its_machine, next, stands};
use bosh_yaml::Node;
use cases_given::{CaseFault, Outcome, named};
use cases_words::Told;
use std::alloc::Global;

fn step_outcome(alloc: Global, step: Option<Step>) -> Result<Outcome, CaseFault> {
    match step {
        Some(step) => Outcome::shown(alloc, &StepTold(step)),
        None => Outcome::shown(alloc, &"nothing"),
    }
}

/// The next step, as `attach_disk 2`, or `nothing`.
pub(crate) fn next_of(alloc: Global, given: &Node) -> Result<Outcome, CaseFault> {
    asked(want_and_row(alloc, given), |it| {
        step_outcome(alloc, next(it.0.as_ref(), &it.1))
    })
}

/// The call of the next step. A case whose row has none, or lacks the machine that it names, has not the form.
pub(crate) fn next_call(
    alloc: Global,
    want: Option<&GoalRow>,
    row: &Row,
) -> Result<Call, CaseFault> {
    let Some(step) = next(want, row) else {
        return Err(CaseFault::Form);
    };
    if !has_its_machine(row) {
        return Err(CaseFault::Form);
    }
    where_memory(call_of(alloc, step, want, row))
}

fn call_outcome(alloc: Global, call: Result<Call, CaseFault>) -> Result<Outcome, CaseFault> {
    asked(call, |call| { Outcome::shown(alloc, &Told(call)) })
}

/// The call of the next step.
pub(crate) fn call_of_next(alloc: Global, given: &Node) -> Result<Outcome, CaseFault> {
    asked(want_and_row(alloc, given), |it| {
        call_outcome(alloc, next_call(alloc, it.0.as_ref(), &it.1))
    })
}

/// Whether the row stands as it is wanted.
pub(crate) fn stands_of(alloc: Global, given: &Node) -> Result<Outcome, CaseFault> {
    asked(want_and_row(alloc, given), |it| {
        named(alloc, &stands(it.0.as_ref(), &it.1))
    })
}

/// Whether the row has the machine that its next step may name.
pub(crate) fn is_machine_there(alloc: Global, given: &Node) -> Result<Outcome, CaseFault> {
    asked(row_at(alloc, given), |row| {
        named(alloc, &has_its_machine(row))
    })
}
