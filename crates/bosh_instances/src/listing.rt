//! How all instances of a deployment are to stand.
ghost use Rattle.std.specs.Prelude.{◌≡◌, ◌≤◌, All, length};
ghost use Rattle.bosh_files.specs.Budget.{Takes};
ghost use Rattle.bosh_files.specs.Gathered.{gather};
ghost use Rattle.bosh_instances.specs.Applied.{job_marks, package_marks};
ghost use Rattle.bosh_instances.specs.Rows.{bounded_rows, group_rows, instance_row, row_bytes, rows};
ghost use Rattle.bosh_wants.specs.Wants.{below};
ghost use Rattle.bosh_manifest_names.specs.Answer.{IsAnswer};
ghost use Rattle.bosh_manifest_names.specs.declared.fault.GoalFault.TheVariants.{Memory};

use crate::Scene;
use crate::applied::Applied;
use crate::filed::{all_links, filed_jobs};
use crate::row::{Company, add_row};
use bosh_base::{GoalRow, Seq};
use bosh_files::Budget;
use bosh_manifest_names::GoalFault;
use bosh_offers::Sited;
use std::alloc::Global;

// Adds the rows of the instances of a group.
fn add_rows(
    alloc: Global,
    scene: &Scene,
    company: &Company,
    budget: &mut Budget,
    rows: &mut Vec<GoalRow>,
) -> Result<(), GoalFault>
    requires zoned { 1 ≤ length company.now.group.now.used.group.azs }
    requires jobs { company.now.applied.now.jobs ≡ job_marks company.now.group.now.used.jobs }
    requires packages { company.now.applied.now.packages ≡ package_marks company.now.group.now.used.jobs }
    ensures { Takes Memory row_bytes result budget.old budget.new rows.old.items rows.new.items
        (gather (instance_row scene.now company.now.group.now company.now.jobs.now)
        (below company.now.group.now.used.group.instances)) }
{
    let count = company.group.used().group().instances;
    for index in 0..count {
        add_row(alloc, scene, company, index, budget, rows)?;
    }
    Ok(())
}

fn add_group<'o, 'a: 'o>(
    alloc: Global,
    scene: &Scene<'a, 'o, '_>,
    group: &Sited<'a, '_>,
    budget: &mut Budget,
    rows: &mut Vec<GoalRow>,
) -> Result<(), GoalFault>
    requires { 1 ≤ length group.now.used.group.azs }
    ensures { Takes Memory row_bytes result budget.old budget.new rows.old.items rows.new.items
        (group_rows scene.now group.now) }
{
    let used = group.used();
    let applied = Applied::of(alloc, used.jobs())?;
    let links = all_links(alloc, scene, used)?;
    let jobs = filed_jobs(alloc, scene, used, links.as_slice())?;
    let company = Company {
        group,
        applied: &applied,
        jobs: jobs.as_slice(),
    };
    add_rows(alloc, scene, &company, budget, rows)
}

fn add_groups<'o, 'a: 'o>(
    alloc: Global,
    scene: &Scene<'a, 'o, '_>,
    groups: &[Sited<'a, '_>],
    budget: &mut Budget,
    rows: &mut Vec<GoalRow>,
) -> Result<(), GoalFault>
    requires { All (λ group. 1 ≤ length group.used.group.azs) groups.now }
    ensures { Takes Memory row_bytes result budget.old budget.new rows.old.items rows.new.items
        (gather (group_rows scene.now) groups.now) }
{
    for group in groups {
        add_group(alloc, scene, group, budget, rows)?;
    }
    Ok(())
}

/// How each instance of some groups is to stand, by group and by index. The refusal is that of the first template that has
/// one; where there is none, `Limit` says that the files of all have together more than 1,048,576 bytes.
pub fn rows<'o, 'a: 'o>(
    alloc: Global,
    scene: &Scene<'a, 'o, '_>,
    groups: &[Sited<'a, '_>],
) -> Result<Seq<GoalRow>, GoalFault>
    requires { All (λ group. 1 ≤ length group.used.group.azs) groups.now }
    ensures { IsAnswer result (rows scene.now groups.now) }
{
    let mut budget = Budget::whole();
    let mut rows = Vec::new(alloc);
    add_groups(alloc, scene, groups, &mut budget, &mut rows)?;
    if budget.is_kept() {
        Ok(Seq::from(rows))
    } else {
        Err(GoalFault::Limit)
    }
}
