ghost use Rattle.std.specs.Prelude.{◌≡◌, IfOk};
ghost use Rattle.bosh_asks.specs.Changed.{is_in, is_obsolete, obsolete_of};
ghost use Rattle.bosh_rows.specs.Same.{same_inst};

use crate::pushing::push_where;
use bosh_base::{CopyFault, Goal, Inst, Seq};
use bosh_records::Instance;
use std::alloc::Global;
use std::collections::btree_map::Iter;

fn same_inst(one: &Inst, other: &Inst) -> bool
    ensures { result ≡ same_inst one.now other.now }
{
    one.dep == other.dep && one.group == other.group && one.index == other.index
}

/// Whether a goal wants an instance.
pub(crate) fn is_in(goal: &Goal, inst: &Inst) -> bool
    ensures { result ≡ is_in goal.now inst.now }
{
    goal.rows.iter().any(|want| same_inst(&want.inst, inst))
}

fn is_obsolete(goal: &Goal, inst: &Inst, instance: &Instance) -> bool
    ensures { result ≡ is_obsolete goal.now (inst.now, instance.now) }
{
    instance.row.is_some() && inst.dep == goal.dep && !is_in(goal, inst)
}

/// Of these instances, those that are recorded and of the goal's deployment, and that the goal does not want.
pub(crate) fn obsolete_of(
    alloc: Global,
    instances: Iter<'_, Inst, Instance>,
    goal: &Goal,
) -> Result<Seq<Inst>, CopyFault>
    ensures { IfOk result (λ obsolete. obsolete ≡ obsolete_of goal.now instances.entry) }
{
    let mut obsolete = Vec::new(alloc);
    for (inst, instance) in instances {
        let is_obsolete = is_obsolete(goal, inst, instance);
        push_where(alloc, is_obsolete, inst, &mut obsolete)?;
    }
    Ok(Seq::from(obsolete))
}
