//! Jobs.
ghost use Rattle.std.specs.Prelude.{◌≡◌, ◌++◌, IfErr, IfOk, Ok, codes, map};
ghost use Rattle.bosh_release_listing.specs.Listing.{digest_of, job_text};
ghost use Rattle.bosh_release_listing.specs.Parts.{stamp_view as stamp_seen};
ghost use Rattle.bosh_release.specs.Draft.{both_files, job_listing, job_of, job_path, job_with, stamped, template_in, with_text};
ghost use Rattle.bosh_release.specs.Spec.{spec_at};
ghost use Rattle.bosh_release_files.specs.Answer.{IsAnswer, IsAnswerSeen, each};
ghost use Rattle.bosh_release_files.specs.declared.fault.ReleaseFault.TheVariants.{Memory};
ghost use Rattle.bosh_release_specs.specs.JobSpec.{a_job_spec};

use crate::reading::{check_name, job_at};
use crate::required::{both_files, path_in, required_at};
use bosh_base::{Copyable, Digest, JobSpec, Name, Seq, TemplateSpec, Text, copy_both};
use bosh_release_files::{Folder, ReleaseFault};
use bosh_release_listing::{Stamp, fingerprint, job_fingerprint};
use bosh_release_specs::{JobDescription, TemplatePlace};
use std::alloc::{AllocError, Global};

fn job_path(alloc: Global, name: &[u8], file: &[u8]) -> Result<Text, AllocError>
    ensures { IfOk result (λ path. path ≡ job_path name.now file.now) }
{
    path_in(alloc, b"jobs/", name, file)
}

fn template_path(alloc: Global, name: &[u8], source: &[u8]) -> Result<Text, AllocError>
    ensures { IfOk result (λ path. path ≡ job_path name.now (codes "/templates/" ++ source.now)) }
{
    let file = path_in(alloc, b"", b"/templates/", source)?;
    job_path(alloc, name, file.as_slice())
}

fn with_text(
    alloc: Global,
    place: &TemplatePlace,
    bytes: &[u8],
) -> Result<TemplateSpec, ReleaseFault>
    ensures { IsAnswer result (Ok (with_text place.now bytes.now)) }
{
    let (source, destination) = copy_both(&place.source, &place.destination, alloc)?;
    let text = Text::from(Vec::from_slice(alloc, bytes)?);
    Ok(TemplateSpec {
        source,
        destination,
        text,
    })
}

#[tactic(auto, unfolding(crate::specs::Draft::template_in))]
fn template_in(
    alloc: Global,
    folder: &Folder<'_>,
    name: &[u8],
    place: &TemplatePlace,
) -> Result<TemplateSpec, ReleaseFault>
    ensures { IsAnswer result (template_in folder.now name.now place.now) }
{
    let path = template_path(alloc, name, place.source.as_slice())?;
    let bytes = required_at(alloc, folder, path.as_slice())?;
    with_text(alloc, place, bytes)
}

fn templates_in(
    alloc: Global,
    folder: &Folder<'_>,
    name: &[u8],
    places: &[TemplatePlace],
) -> Result<Seq<TemplateSpec>, ReleaseFault>
    ensures { IsAnswer result (each (template_in folder.now name.now) places.now) }
{
    let mut templates = Vec::new(alloc);
    for place in places {
        templates.push(template_in(alloc, folder, name, place)?)?;
    }
    Ok(Seq::from(templates))
}

fn stamps_of<'a>(alloc: Global, templates: &'a [TemplateSpec]) -> Result<Vec<Stamp<'a>>, AllocError>
    ensures { IfOk result (λ stamps. map stamp_seen stamps.items ≡ map stamped templates.now) }
{
    let mut stamps = Vec::new(alloc);
    for template in templates {
        stamps.push(Stamp {
            name: template.source.as_slice(),
            digest: fingerprint(template.text.as_slice()),
        })?;
    }
    Ok(stamps)
}

fn job_print(
    alloc: Global,
    name: &Name,
    spec: &[u8],
    monit: &[u8],
    templates: &[TemplateSpec],
) -> Result<Digest, AllocError>
    ensures { IfOk result (λ digest. digest
        ≡ digest_of (job_text (job_listing name.now spec.now monit.now templates.now))) }
{
    let stamps = stamps_of(alloc, templates)?;
    Ok(job_fingerprint(name, &fingerprint(spec), &fingerprint(monit), &stamps))
}

fn job_with(
    alloc: Global,
    description: JobDescription,
    templates: Seq<TemplateSpec>,
    spec: &[u8],
    monit: &[u8],
) -> Result<JobSpec, ReleaseFault>
    ensures { IsAnswer result (Ok (job_with description templates spec.now monit.now)) }
{
    let fingerprint = job_print(alloc, &description.name, spec, monit, templates.as_slice())?;
    Ok(JobSpec {
        name: description.name,
        fingerprint,
        templates,
        packages: description.packages,
        properties: description.properties,
        provides: description.provides,
        consumes: description.consumes,
    })
}

// The bytes of the spec and of what monitors the job.
fn job_files<'a>(
    alloc: Global,
    folder: &Folder<'a>,
    name: &[u8],
) -> Result<(&'a [u8], &'a [u8]), ReleaseFault>
    ensures { IsAnswerSeen (λ both. (both.0.now, both.1.now)) result
        (both_files folder.now (job_path name.now (codes "/spec")) (job_path name.now (codes "/monit"))) }
{
    let spec = job_path(alloc, name, b"/spec")?;
    let monit = job_path(alloc, name, b"/monit")?;
    both_files(alloc, folder, spec.as_slice(), monit.as_slice())
}

/// The job of a folder in `jobs/`.
// Dear to prove: what the spec says is alive where a template is missing, or the name differs.
#[tactic(auto, unfolding(crate::specs::Draft::job_of))]
pub(crate) fn job_of(
    alloc: Global,
    folder: &Folder<'_>,
    name: &[u8],
) -> Result<JobSpec, ReleaseFault>
    ensures { IsAnswer result (job_of folder.now name.now) }
{
    let (spec, monit) = job_files(alloc, folder, name)?;
    let path = job_path(alloc, name, b"/spec")?;
    let description = job_at(alloc, path.as_slice(), spec)?;
    let templates = templates_in(alloc, folder, name, description.templates.as_slice())?;
    check_name(alloc, path.as_slice(), name, &description.name)?;
    job_with(alloc, description, templates, spec, monit)
}
