//! The text of a template for an instance, and where its file lies.
ghost use Rattle.std.specs.Prelude.{◌≡◌, IfOk};
ghost use Rattle.bosh_files.specs.Files.{path_of, text_for};
ghost use Rattle.bosh_template.specs.Answer.{IsAnswer};

use bosh_base::{Name, Text};
use bosh_template::{Env, TemplateFault, parse_template, render};
use std::alloc::{AllocError, Global};

/// The text of a template: it is read, and then rendered.
pub(crate) fn text_for(alloc: Global, env: &Env, text: &Text) -> Result<Text, TemplateFault>
    ensures { IsAnswer result (text_for env.now text.now) }
{
    let template = parse_template(alloc, text.as_slice())?;
    render(alloc, &template, env)
}

/// `jobs/JOB/DESTINATION`.
pub(crate) fn path_of(alloc: Global, job: &Name, destination: &Text) -> Result<Text, AllocError>
    ensures { IfOk result (λ path. path ≡ path_of job.now destination.now) }
{
    let mut path = Vec::from_slice(alloc, b"jobs/".as_slice())?;
    path.extend_from_slice(job.as_bytes())?;
    path.push(b'/')?;
    path.extend_from_slice(destination.as_slice())?;
    Ok(Text::from(path))
}
