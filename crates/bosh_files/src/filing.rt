//! The files of an instance.
ghost use Rattle.bosh_files.specs.Budget.{Takes};
ghost use Rattle.bosh_files.specs.Files.{bytes_of, env_at, file, files, job_files, path_of};
ghost use Rattle.std.specs.Prelude.{◌∷◌, [], Ok};
ghost use Rattle.bosh_template.specs.declared.fault.TemplateFault.TheVariants.{Memory};

use crate::text::{path_of, text_for};
use crate::{Budget, FiledJob};
use bosh_base::{Addr, Name, Placed, TemplateSpec, Text};
use bosh_template::{Env, TemplateFault};
use std::alloc::Global;

// Keeps a file of a job, where there is room for it.
fn keep(
    alloc: Global,
    job: &Name,
    destination: &Text,
    text: Text,
    budget: &mut Budget,
    placed: &mut Vec<Placed>,
) -> Result<(), TemplateFault>
    ensures { Takes Memory bytes_of result budget.old budget.new placed.old.items placed.new.items
        (Ok (record { path = path_of job.now destination.now; text = text } ∷ [])) }
{
    budget.take(text.len());
    if budget.is_kept() {
        let path = path_of(alloc, job, destination)?;
        placed.push(Placed { path, text })?;
    }
    Ok(())
}

fn add_file(
    alloc: Global,
    job: &Name,
    env: &Env,
    template: &TemplateSpec,
    budget: &mut Budget,
    placed: &mut Vec<Placed>,
) -> Result<(), TemplateFault>
    ensures { Takes Memory bytes_of result budget.old budget.new placed.old.items placed.new.items
        (file job.now env.now template.now) }
{
    let text = text_for(alloc, env, &template.text)?;
    keep(alloc, job, &template.destination, text, budget, placed)
}

// Adds the files of a job.
fn add_files(
    alloc: Global,
    job: &Name,
    env: &Env,
    templates: &[TemplateSpec],
    budget: &mut Budget,
    placed: &mut Vec<Placed>,
) -> Result<(), TemplateFault>
    ensures { Takes Memory bytes_of result budget.old budget.new placed.old.items placed.new.items
        (job_files job.now env.now templates.now) }
{
    for template in templates {
        add_file(alloc, job, env, template, budget, placed)?;
    }
    Ok(())
}

// Adds the files of a job for an instance.
fn add_job(
    alloc: Global,
    job: &FiledJob,
    index: u32,
    az: &Name,
    addr: Addr,
    budget: &mut Budget,
    placed: &mut Vec<Placed>,
) -> Result<(), TemplateFault>
    ensures { Takes Memory bytes_of result budget.old budget.new placed.old.items placed.new.items
        (job_files job.now.name (env_at index az.now addr job.now.env) job.now.templates) }
{
    let env = Env::of(job.env(), index, az, addr);
    add_files(alloc, job.name(), &env, job.templates(), budget, placed)
}

/// Adds the files of an instance, job by job and then by the source of the template, as long as all that the deployment has
/// so far is within the limit; past it they are rendered, for what a template may be refused for, and not kept. The refusal
/// is that of the first template that has one.
pub fn files(
    alloc: Global,
    jobs: &[FiledJob],
    index: u32,
    az: &Name,
    addr: Addr,
    budget: &mut Budget,
    placed: &mut Vec<Placed>,
) -> Result<(), TemplateFault>
    ensures { Takes Memory bytes_of result budget.old budget.new placed.old.items placed.new.items
        (files index az.now addr jobs.now) }
{
    for job in jobs {
        add_job(alloc, job, index, az, addr, budget, placed)?;
    }
    Ok(())
}
