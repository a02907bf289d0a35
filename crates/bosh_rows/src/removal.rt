//! Machines that are not wanted, and machines that are missing.
ghost use Rattle.std.specs.Prelude.{◌≡◌};
ghost use Rattle.bosh_rows.specs.NextStep.{creation, has_to_go, removal};

use crate::Step;
use crate::group::Group;
use bosh_base::{GoalRow, Method, Row, State, Vm};

/// Whether a machine is not wanted: its instance is to be detached, or is wanted of another make or of a later call.
pub(crate) fn has_to_go(want: &GoalRow, row: &Row, vm: Vm) -> bool
    ensures { result ≡ has_to_go want.now row.now vm }
{
    want.state == State::Detached
        || row.make.as_ref() != Some(&want.make)
        || vm.agent <= want.fresh_after
}

/// 2. A machine that nobody wants is drained, stopped, loses its disks, and is deleted.
pub(crate) fn removal(row: &Row) -> Option<Step>
    ensures { result ≡ removal row.now }
{
    if row.running && !row.drained {
        return Some(Step::plain(Method::Drain));
    }
    if row.running {
        return Some(Step::plain(Method::Stop));
    }
    let letting_go = Group::Every.letting_go(row.disks.as_slice());
    letting_go.or(Some(Step::plain(Method::DeleteVm)))
}

/// 3. A machine that is missing is created.
pub(crate) fn creation(want: &GoalRow) -> Option<Step>
    ensures { result ≡ creation want.now }
{
    if want.state == State::Detached {
        return None;
    }
    Some(Step::plain(Method::CreateVm))
}
