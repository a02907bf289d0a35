ghost use Rattle.std.specs.Prelude.{◌≡◌, [], IfErr, IfOk, map};
ghost use Rattle.bosh_fields.specs.declared.fault.FieldFault.TheVariants.{Memory};
ghost use Rattle.bosh_yaml.specs.View.{tree_of};
ghost use Rattle.bosh_fields.specs.Answer.{IsAnswer};
ghost use Rattle.bosh_release_specs.specs.JobSpec.{a_job_spec, links, name_and_templates, packages_and_properties, property, template};

use crate::fallback::Fallback;
use crate::link::{Consumed, Provided, links_at};
use crate::mapping::fields_at;
use crate::package_file::list_at;
use crate::{JobDescription, TemplatePlace};
use bosh_base::{LinkSpec, Name, PropSpec, Seq, Text};
use bosh_fields::{FieldFault, check_mapping, required};
use bosh_yaml::Node;
use std::alloc::Global;
use std::collections::BTreeMap;

fn templates(alloc: Global, named: BTreeMap<Text, Text>) -> Result<Seq<TemplatePlace>, FieldFault>
    ensures places { IfOk result (λ places. places ≡ map template named.entries) }
    ensures err { IfErr result (λ fault. fault ≡ Memory) }
{
    let mut places = Vec::new(alloc);
    for (source, destination) in named {
        places.push(TemplatePlace {
            source,
            destination,
        })?;
    }
    Ok(Seq::from(places))
}

fn properties(alloc: Global, named: BTreeMap<Text, Fallback>) -> Result<Seq<PropSpec>, FieldFault>
    ensures properties { IfOk result (λ properties. properties ≡ map property named.entries) }
    ensures err { IfErr result (λ fault. fault ≡ Memory) }
{
    let mut properties = Vec::new(alloc);
    for (name, fallback) in named {
        let fallback = fallback.into_setting();
        properties.push(PropSpec { name, fallback })?;
    }
    Ok(Seq::from(properties))
}

fn name_and_templates(alloc: Global, node: &Node) -> Result<(Name, Seq<TemplatePlace>), FieldFault>
    ensures { IsAnswer result (name_and_templates (tree_of node.now)) }
{
    let name = required(alloc, node, b"name")?;
    Ok((
        name,
        templates(alloc, fields_at(alloc, node, b"templates")?)?,
    ))
}

fn packages_and_properties(
    alloc: Global,
    node: &Node,
) -> Result<(Seq<Name>, Seq<PropSpec>), FieldFault>
    ensures { IsAnswer result (packages_and_properties (tree_of node.now)) }
{
    let packages = list_at(alloc, node, b"packages")?;
    Ok((
        packages,
        properties(alloc, fields_at(alloc, node, b"properties")?)?,
    ))
}

fn links(alloc: Global, node: &Node) -> Result<(Seq<LinkSpec>, Seq<LinkSpec>), FieldFault>
    ensures { IsAnswer result (links (tree_of node.now)) }
{
    let provides = links_at::<Provided>(alloc, node, b"provides")?;
    Ok((provides, links_at::<Consumed>(alloc, node, b"consumes")?))
}

/// What the spec of a job says, which is a mapping with `name`, and perhaps `templates`, `packages`, `properties`,
/// `provides` and `consumes`. The fault names the key (bosh.io, "Jobs", "Job specification").
// Dear to prove: the parts that were read are alive wherever the next one may be refused.
pub fn job_spec(alloc: Global, node: &Node) -> Result<JobDescription, FieldFault>
    ensures { IsAnswer result (a_job_spec [] (tree_of node.now)) }
{
    check_mapping(alloc, b"", node)?;
    let (name, templates) = name_and_templates(alloc, node)?;
    let (packages, properties) = packages_and_properties(alloc, node)?;
    let (provides, consumes) = links(alloc, node)?;
    Ok(JobDescription {
        name,
        templates,
        packages,
        properties,
        provides,
        consumes,
    })
}
