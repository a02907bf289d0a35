//! What cases give.
use crate::rows::row_of;
use crate::wants::want_of;
use bosh_base::{GoalRow, Row};
use bosh_rows::RowFault;
use bosh_yaml::Node;
use cases_given::{CaseFault, Outcome, both, text_at};
use cases_words::{Worded, whole};
use std::alloc::Global;

/// The value that the text at a key writes.
pub(crate) fn at<T: Worded>(alloc: Global, given: &Node, key: &str) -> Result<T, CaseFault> {
    whole(alloc, text_at(given, key)?)
}

pub(crate) fn row_at(alloc: Global, given: &Node) -> Result<Row, CaseFault> {
    row_of(alloc, text_at(given, "row")?)
}

/// The want, if it is one, and the row.
pub(crate) fn want_and_row(
    alloc: Global,
    given: &Node,
) -> Result<(Option<GoalRow>, Row), CaseFault> {
    let want = text_at(given, "want")?;
    both(want_of(alloc, want), row_at(alloc, given))
}

/// What a call on a row gave, where there was memory for it.
pub(crate) fn where_memory<T: Drop>(answer: Result<T, RowFault>) -> Result<T, CaseFault> {
    match answer {
        Ok(value) => Ok(value),
        Err(RowFault::Memory) => Err(CaseFault::Memory),
    }
}

/// What is asked of what a case gives, where it has the form. Generic, since a row that is let go is dear to prove.
pub(crate) fn asked<T: Drop, F: FnOnce(&mut T) -> Result<Outcome, CaseFault> + Drop>(
    given: Result<T, CaseFault>,
    ask: F,
) -> Result<Outcome, CaseFault>
    requires { F.IsAlwaysCallable ask }
{
    match given {
        Ok(mut given) => ask(&mut given),
        Err(fault) => Err(fault),
    }
}
