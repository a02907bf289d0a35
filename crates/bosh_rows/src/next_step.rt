ghost use Rattle.std.specs.Prelude.{◌≡◌};
ghost use Rattle.std.specs.Option.{option_copied};
ghost use Rattle.bosh_rows.specs.NextStep.{machine_step, next_step};

use crate::Step;
use crate::removal::{creation, has_to_go, removal};
use crate::tending::tending;
use crate::unknown::{lost_step, probe_step};
use bosh_base::{GoalRow, Row};

// By the rules from 2 on.
fn machine_step(want: Option<&GoalRow>, row: &Row) -> Option<Step>
    ensures { result ≡ machine_step (option_copied want.entry) row.now row.now.vm }
{
    match (want, row.vm) {
        (None, Some(_)) => removal(row),
        (None, None) => None,
        (Some(want), Some(vm)) if has_to_go(want, row, vm) => removal(row),
        (Some(want), Some(_)) => tending(want, row),
        (Some(want), None) => creation(want),
    }
}

/// What is to be done next for an instance, as it is wanted and as it is recorded: the first rule that applies. Without
/// a want it is to have nothing. There is nothing to do where the answer is none.
pub fn next(want: Option<&GoalRow>, row: &Row) -> Option<Step>
    ensures { result ≡ next_step (option_copied want.entry) row.now }
{
    if row.lost {
        return Some(lost_step(row.doubt.as_ref()));
    }
    match &row.doubt {
        Some(doubt) => Some(probe_step(doubt)),
        None => machine_step(want, row),
    }
}
