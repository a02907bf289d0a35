ghost use Rattle.std.specs.Prelude.{◌≡◌};
ghost use Rattle.bosh_records.specs.Recorded.{recorded};
ghost use Rattle.bosh_fold.specs.Tasks.{with_wants_cleared, wants_forgotten, wants_noted};

use bosh_base::Goal;
use bosh_records::{Instances, Records, Since};

/// Notes how a goal wants its instances.
pub(crate) fn note_wants(instances: &mut Instances, goal: &Goal)
    ensures { instances.new.by_inst.entries ≡ wants_noted goal.now.rows instances.old.by_inst.entries }
{
    for (place, want) in goal.rows.iter().enumerate() {
        instances.set_want(&want.inst, Some(place));
    }
}

/// The current goal of a deployment wants nothing any more.
pub(crate) fn clear_wants(records: &mut Records, since: Since)
    ensures { recorded records.new ≡ with_wants_cleared since (recorded records.old) }
{
    if let Some(row) = records.deployments.get(&since) {
        forget_wants(&mut records.instances, &row.goal);
    }
}

fn forget_wants(instances: &mut Instances, goal: &Goal)
    ensures { instances.new.by_inst.entries ≡ wants_forgotten goal.now.rows instances.old.by_inst.entries }
{
    for want in goal.rows.iter() {
        instances.set_want(&want.inst, None);
    }
}
