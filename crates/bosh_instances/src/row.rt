//! How an instance is to stand.
ghost use Rattle.std.specs.Prelude.{◌≡◌, ◌≤◌, IfOk, List, Result, length};
ghost use Rattle.bosh_base.specs.declared.spec.Placed.{Placed};
ghost use Rattle.bosh_files.specs.Budget.{Takes};
ghost use Rattle.bosh_files.specs.Files.{bytes_of};
ghost use Rattle.bosh_files.specs.declared.budget.Budget.{Budget};
ghost use Rattle.bosh_instances.specs.Applied.{job_marks, package_marks};
ghost use Rattle.bosh_instances.specs.Machines.{make_of, own_addrs};
ghost use Rattle.bosh_instances.specs.Rows.{goal_row, instance_row, placed, row_bytes, zone};
ghost use Rattle.bosh_wants.specs.Zones.{inst_of};
ghost use Rattle.bosh_template.specs.declared.fault.TemplateFault.{TemplateFault};
ghost use Rattle.bosh_template.specs.declared.fault.TemplateFault.TheVariants as template;
ghost use Rattle.bosh_manifest_names.specs.Answer.{with_fault};
ghost use Rattle.bosh_manifest_names.specs.declared.fault.GoalFault.TheVariants.{Memory, Template};

use crate::Scene;
use crate::applied::Applied;
use crate::machine::make_of;
use crate::state::state_of;
use bosh_base::{Addr, CopyFault, DiskWant, GoalRow, Inst, Make, Name, Placed, Spec, copy_both};
use bosh_files::{Budget, FiledJob, files};
use bosh_manifest_names::GoalFault;
use bosh_offers::{Sited, gateway_addr};
use bosh_template::TemplateFault;
use bosh_wants::zone_of;
use std::alloc::Global;

/// A group, with what its instances share.
#[derive(Clone, Copy)]
pub(crate) struct Company<'a, 'n, 'o, 'l, 'g, 's> {
    pub(crate) group: &'g Sited<'a, 'n>,
    /// The marks of its jobs and packages.
    pub(crate) applied: &'s Applied,
    pub(crate) jobs: &'s [FiledJob<'o, 'l>],
}

// The addresses of an instance.
fn own_addrs<'n>(group: &Sited<'_, 'n>, index: u32) -> &'n [Addr]
    ensures { result.now ≡ own_addrs group.now index }
{
    match group.instances().get(index as usize) {
        Some(own) => own,
        None => &[],
    }
}

fn zone<'s>(scene: &'s Scene, group: &'s Sited, index: u32) -> &'s Name
    requires { 1 ≤ length group.now.used.group.azs }
    ensures { result.now ≡ zone scene.now group.now index }
{
    let rows = scene.view.rows.as_slice();
    zone_of(rows, scene.dep, group.used().group(), index)
}

fn inst_of(alloc: Global, scene: &Scene, group: &Sited, index: u32) -> Result<Inst, CopyFault>
    ensures { IfOk result (λ inst. inst ≡ inst_of scene.now.dep group.now.used.group index) }
{
    let (dep, group) = copy_both(scene.dep, &group.used().group().name, alloc)?;
    Ok(Inst { dep, group, index })
}

fn inst_and_make(
    alloc: Global,
    scene: &Scene,
    group: &Sited,
    index: u32,
) -> Result<(Inst, Make), CopyFault>
    requires { 1 ≤ length group.now.used.group.azs }
    ensures { IfOk result (λ it. it ≡ (
      inst_of scene.now.dep group.now.used.group index,
      make_of group.now.used (zone scene.now group.now index) (own_addrs group.now index),
    )) }
{
    let az = zone(scene, group, index);
    let make = make_of(alloc, group.used(), az, own_addrs(group, index))?;
    let inst = inst_of(alloc, scene, group, index)?;
    Ok((inst, make))
}

fn spec_and_disk(
    alloc: Global,
    company: &Company,
    placed: Vec<Placed>,
) -> Result<(Spec, Option<DiskWant>), CopyFault>
    ensures { IfOk result (λ it. it ≡ (
      record {
        jobs = company.now.applied.now.jobs;
        packages = company.now.applied.now.packages;
        files = placed.items;
      },
      company.now.group.now.used.disk,
    )) }
{
    let spec = company.applied.with_files(alloc, placed)?;
    let disk = company.group.used().disk(alloc)?;
    Ok((spec, disk))
}

fn goal_row(
    alloc: Global,
    scene: &Scene,
    company: &Company,
    index: u32,
    placed: Vec<Placed>,
) -> Result<GoalRow, CopyFault>
    requires zoned { 1 ≤ length company.now.group.now.used.group.azs }
    requires jobs { company.now.applied.now.jobs ≡ job_marks company.now.group.now.used.jobs }
    requires packages { company.now.applied.now.packages ≡ package_marks company.now.group.now.used.jobs }
    ensures { IfOk result (λ row. row ≡ goal_row scene.now company.now.group.now index placed.items) }
{
    let group = company.group;
    let state = state_of(&scene.view.goal, scene.dep, group.used().group(), index);
    let (inst, make) = inst_and_make(alloc, scene, group, index)?;
    let (spec, disk) = spec_and_disk(alloc, company, placed)?;
    Ok(GoalRow {
        inst,
        make,
        spec,
        disk,
        state,
        fresh_after: scene.fresh_after,
    })
}

fn as_template(answer: Result<(), TemplateFault>) -> Result<(), GoalFault>
    ensures { (before after : Budget) (old new : List Placed) (told : Result (List Placed) TemplateFault)
        → Takes template.Memory bytes_of answer before after old new told
        → Takes Memory bytes_of result before after old new (with_fault Template told) }
{
    match answer {
        Ok(()) => Ok(()),
        Err(TemplateFault::Memory) => Err(GoalFault::Memory),
        Err(fault) => Err(GoalFault::Template(fault)),
    }
}

// Adds the files of an instance.
fn add_files(
    alloc: Global,
    scene: &Scene,
    company: &Company,
    index: u32,
    budget: &mut Budget,
    kept: &mut Vec<Placed>,
) -> Result<(), GoalFault>
    requires { 1 ≤ length company.now.group.now.used.group.azs }
    ensures { Takes Memory bytes_of result budget.old budget.new kept.old.items kept.new.items
        (placed scene.now company.now.group.now company.now.jobs.now index) }
{
    let group = company.group;
    let az = zone(scene, group, index);
    let addr = gateway_addr(group.used().group(), own_addrs(group, index));
    as_template(files(alloc, company.jobs, index, az, addr, budget, kept))
}

/// Adds the row of an instance, where there is room for its files.
pub(crate) fn add_row(
    alloc: Global,
    scene: &Scene,
    company: &Company,
    index: u32,
    budget: &mut Budget,
    rows: &mut Vec<GoalRow>,
) -> Result<(), GoalFault>
    requires zoned { 1 ≤ length company.now.group.now.used.group.azs }
    requires jobs { company.now.applied.now.jobs ≡ job_marks company.now.group.now.used.jobs }
    requires packages { company.now.applied.now.packages ≡ package_marks company.now.group.now.used.jobs }
    ensures { Takes Memory row_bytes result budget.old budget.new rows.old.items rows.new.items
        (instance_row scene.now company.now.group.now company.now.jobs.now index) }
{
    let mut placed = Vec::new(alloc);
    add_files(alloc, scene, company, index, budget, &mut placed)?;
    if budget.is_kept() {
        rows.push(goal_row(alloc, scene, company, index, placed)?)?;
    }
    Ok(())
}
