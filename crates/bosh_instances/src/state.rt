//! The state that an instance is to have.
ghost use Rattle.std.specs.Prelude.{◌≡◌, find};
ghost use Rattle.std.specs.Option.{option_copied};
ghost use Rattle.bosh_instances.specs.Machines.{state_in, state_of};
ghost use Rattle.bosh_wants.specs.Zones.{inst_of};
ghost use Rattle.bosh_pool.specs.Fixed.{same_inst};

use bosh_base::{Goal, GoalRow, Inst, Name, State};
use bosh_manifest::Group;

fn is_inst(inst: &Inst, dep: &Name, group: &Group, index: u32) -> bool
    ensures { result ≡ same_inst inst.now (inst_of dep.now group.now index) }
{
    inst.dep == *dep && inst.group == group.name && inst.index == index
}

fn goal_row<'a>(rows: &'a [GoalRow], dep: &Name, group: &Group, index: u32) -> Option<&'a GoalRow>
    ensures { option_copied result ≡ find (λ row. same_inst row.inst (inst_of dep.now group.now index)) rows.now }
{
    rows.iter()
        .find(|row| is_inst(&row.inst, dep, group, index))
}

fn state_in(row: Option<&GoalRow>) -> State
    ensures { result ≡ state_in (option_copied row.entry) }
{
    match row {
        Some(row) => row.state,
        None => State::Running,
    }
}

/// The state of an instance by the current goal; a new one is to run.
pub(crate) fn state_of(goal: &Option<Goal>, dep: &Name, group: &Group, index: u32) -> State
    ensures { result ≡ state_of goal.now (inst_of dep.now group.now index) }
{
    match goal {
        None => State::Running,
        Some(goal) => state_in(goal_row(goal.rows.as_slice(), dep, group, index)),
    }
}
