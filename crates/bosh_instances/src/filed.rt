//! What the templates of a group's jobs look up.
ghost use Rattle.std.specs.Prelude.{◌≡◌, IfOk, length, map};
ghost use Rattle.bosh_instances.specs.Rows.{filed, filed_jobs};
ghost use Rattle.bosh_offers.specs.Tied.{job_links};

use crate::Scene;
use bosh_files::FiledJob;
use bosh_manifest_names::{UsedGroup, UsedJob};
use bosh_offers::links;
use bosh_template::{JobEnv, LinkEnv};
use std::alloc::{AllocError, Global};

/// What the links of each job of a group give.
pub(crate) fn all_links<'o, 'a: 'o>(
    alloc: Global,
    scene: &Scene<'a, 'o, '_>,
    used: &UsedGroup<'a>,
) -> Result<Vec<Vec<LinkEnv<'o>>>, AllocError>
    ensures { IfOk result (λ all. map (λ links. links.items) all.items
        ≡ map (job_links scene.now.offered scene.now.dep used.now.group.name) used.now.jobs) }
{
    let mut all = Vec::new(alloc);
    for job in used.jobs() {
        all.push(links(alloc, scene.offered, scene.dep, &used.group().name, job)?)?;
    }
    Ok(all)
}

fn filed<'o, 'l, 'a: 'o>(
    alloc: Global,
    scene: &Scene<'a, 'o, '_>,
    used: &UsedGroup<'a>,
    job: &UsedJob<'a>,
    links: &'l [LinkEnv<'o>],
) -> Result<FiledJob<'o, 'l>, AllocError>
    requires { links.now ≡ job_links scene.now.offered scene.now.dep used.now.group.name job.now }
    ensures { IfOk result (λ it. it ≡ filed scene.now used.now.group.name job.now) }
{
    let declared = job.spec().properties.as_slice();
    let given = job.job().properties.as_node();
    let env = JobEnv::of(alloc, scene.dep, &used.group().name, declared, given, links)?;
    Ok(FiledJob::of(&job.job().name, job.spec().templates.as_slice(), env))
}

/// The jobs of a group with what their templates look up, where `links` has what their links give.
pub(crate) fn filed_jobs<'o, 'l, 'a: 'o>(
    alloc: Global,
    scene: &Scene<'a, 'o, '_>,
    used: &UsedGroup<'a>,
    links: &'l [Vec<LinkEnv<'o>>],
) -> Result<Vec<FiledJob<'o, 'l>>, AllocError>
    requires { map (λ links. links.items) links.now
        ≡ map (job_links scene.now.offered scene.now.dep used.now.group.name) used.now.jobs }
    ensures { IfOk result (λ jobs. jobs.items ≡ filed_jobs scene.now used.now) }
{
    let mut jobs = Vec::new(alloc);
    for (place, job) in used.jobs().iter().enumerate() {
        jobs.push(filed(alloc, scene, used, job, links[place].as_slice())?)?;
    }
    Ok(jobs)
}
