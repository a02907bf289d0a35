//! What is gathered of the jobs of a deployment.
ghost use Rattle.std.specs.Prelude.{◌≡◌, ◌++◌, IfOk, IsOkUnless, OnOk};
ghost use Rattle.std.specs.List.{flat_map};
ghost use Rattle.std.specs.Option.{option_to_list};
ghost use Rattle.bosh_ties.specs.Links.{of_groups};
ghost use Rattle.bosh_manifest_names.specs.declared.fault.GoalFault.TheVariants.{Memory};

use bosh_base::Name;
use bosh_manifest_names::{GoalFault, UsedGroup, UsedJob};
use std::alloc::Global;

/// What jobs have several of.
pub(crate) trait OfJob: Drop {
    ghost use Rattle.std.specs.Prelude.{List, ℕ};
    ghost use Rattle.bosh_manifest_names.specs.Used.{UsedJob};

    /// Those of a job, by the names of its deployment and its group.
    ghost of_job: { List ℕ → List ℕ → UsedJob → List Self };

    /// Adds those of a job.
    fn add_of_job(
        alloc: Global,
        dep: &Name,
        group: &Name,
        job: &UsedJob,
        items: &mut Vec<Self>,
    ) -> Result<(), GoalFault>
        ensures ok { OnOk result (items.new.items ≡ items.old.items ++ of_job dep.now group.now job.now) }
        ensures err { IsOkUnless result Memory };
}

/// Adds an item, where there is one.
pub(crate) fn push_some<T: Drop>(item: Option<T>, items: &mut Vec<T>) -> Result<(), GoalFault>
    ensures ok { OnOk result (items.new.items ≡ items.old.items ++ option_to_list item) }
    ensures err { IsOkUnless result Memory }
{
    if let Some(item) = item {
        items.push(item)?;
    }
    Ok(())
}

fn add_of_group<T: OfJob>(
    alloc: Global,
    dep: &Name,
    group: &UsedGroup,
    items: &mut Vec<T>,
) -> Result<(), GoalFault>
    ensures ok { OnOk result (items.new.items
        ≡ items.old.items ++ flat_map (T.of_job dep.now group.now.group.name) group.now.jobs) }
    ensures err { IsOkUnless result Memory }
{
    let name = &group.group().name;
    for job in group.jobs() {
        T::add_of_job(alloc, dep, name, job, items)?;
    }
    Ok(())
}

/// Those of all jobs, in the order of the manifest.
pub(crate) fn of_groups<T: OfJob>(
    alloc: Global,
    dep: &Name,
    groups: &[UsedGroup],
) -> Result<Vec<T>, GoalFault>
    ensures ok { IfOk result (λ items. items.items ≡ of_groups T.of_job dep.now groups.now) }
    ensures err { IsOkUnless result Memory }
{
    let mut items = Vec::new(alloc);
    for group in groups {
        add_of_group(alloc, dep, group, &mut items)?;
    }
    Ok(items)
}
