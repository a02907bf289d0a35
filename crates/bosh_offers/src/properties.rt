//! The properties that links give.
ghost use Rattle.std.specs.Prelude.{◌≡◌, IfOk};
ghost use Rattle.bosh_offers.specs.Offers.{giving, link_props, prop_of};

use crate::pushing::push_some;
use bosh_base::{LinkSpec, Name, Prop, Seq, Text};
use bosh_manifest_names::UsedJob;
use bosh_template::{JobEnv, property};
use std::alloc::{AllocError, Global};

/// What a job has to give: its own properties.
pub(crate) fn giving<'a>(
    alloc: Global,
    dep: &'a Name,
    group: &'a Name,
    used: &UsedJob<'a>,
) -> Result<JobEnv<'a, 'a>, AllocError>
    ensures { IfOk result (λ job. job ≡ giving dep.now group.now used.now) }
{
    let declared = used.spec().properties.as_slice();
    let given = used.job().properties.as_node();
    JobEnv::of(alloc, dep, group, declared, given, &[])
}

fn prop_of(alloc: Global, job: &JobEnv, name: &Text) -> Result<Option<Prop>, AllocError>
    ensures { IfOk result (λ prop. prop ≡ prop_of job.now name.now) }
{
    let Some(value) = property(alloc, job, name)? else {
        return Ok(None);
    };
    let name = Text::from(Vec::from_slice(alloc, name.as_slice())?);
    Ok(Some(Prop { name, value }))
}

/// Those of the properties that a link lists which have a value.
pub(crate) fn link_props(
    alloc: Global,
    job: &JobEnv,
    link: &LinkSpec,
) -> Result<Seq<Prop>, AllocError>
    ensures { IfOk result (λ props. props ≡ link_props job.now link.now) }
{
    let mut props = Vec::new(alloc);
    let listed = link.properties.as_slice();
    for name in listed {
        push_some(prop_of(alloc, job, name)?, &mut props)?;
    }
    Ok(Seq::from(props))
}
