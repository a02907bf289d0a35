//! Files of fields.
ghost use Rattle.std.specs.Prelude.{◌≡◌, true, Result};
ghost use Rattle.bosh_fields.specs.Answer.{IsAnswer as IsFieldAnswer};
ghost use Rattle.bosh_fields.specs.declared.fault.FieldFault.{FieldFault};
ghost use Rattle.bosh_release.specs.Spec.{check_name, fields_at, spec_at, tree_at};
ghost use Rattle.bosh_release_files.specs.Answer.{IsAnswer, IsAnswerSeen};
ghost use Rattle.bosh_release_specs.specs.JobSpec.{a_job_spec};
ghost use Rattle.bosh_release_specs.specs.PackageSpec.{a_package_spec, a_release};
ghost use Rattle.bosh_yaml.specs.View.{tree_of};

use bosh_base::Name;
use bosh_fields::FieldFault;
use bosh_release_files::{ReleaseFault, malformed_spec, name_differs};
use bosh_release_specs::{
    JobDescription, PackageDescription, job_spec, package_spec, release_name,
};
use bosh_yaml::{Node, ReadFault, read};
use std::alloc::Global;

fn node_at(alloc: Global, path: &[u8], text: &[u8]) -> Result<Node, ReleaseFault>
    ensures { IsAnswerSeen tree_of result (tree_at path.now text.now) }
{
    match read(alloc, text) {
        Ok(node) => Ok(node),
        Err(ReadFault::Memory) => Err(ReleaseFault::Memory),
        Err(ReadFault::Syntax { line }) => malformed_spec(alloc, path, line),
        Err(ReadFault::RepeatedKey { line }) => malformed_spec(alloc, path, line),
        Err(ReadFault::TooDeep) => malformed_spec(alloc, path, 0),
        Err(ReadFault::TooLarge) => malformed_spec(alloc, path, 0),
        Err(ReadFault::Number) => malformed_spec(alloc, path, 0),
    }
}

// What fields are read as; whatever is wrong with one is told by the path alone. Dear to prove, since what was read is
// of any type; proved once.
fn fields_at<T: Drop>(
    alloc: Global,
    path: &[u8],
    fields: Result<T, FieldFault>,
) -> Result<T, ReleaseFault>
    ensures { (answer : Result T FieldFault) → IsFieldAnswer fields answer
        → IsAnswer result (fields_at path.now answer) }
{
    match fields {
        Ok(value) => Ok(value),
        Err(FieldFault::Memory) => Err(ReleaseFault::Memory),
        Err(_) => malformed_spec(alloc, path, 0),
    }
}

/// What the spec of a job says.
pub(crate) fn job_at(
    alloc: Global,
    path: &[u8],
    text: &[u8],
) -> Result<JobDescription, ReleaseFault>
    ensures { IsAnswer result (spec_at a_job_spec path.now text.now) }
{
    let node = node_at(alloc, path, text)?;
    fields_at(alloc, path, job_spec(alloc, &node))
}

/// What the spec of a package says.
pub(crate) fn package_at(
    alloc: Global,
    path: &[u8],
    text: &[u8],
) -> Result<PackageDescription, ReleaseFault>
    ensures { IsAnswer result (spec_at a_package_spec path.now text.now) }
{
    let node = node_at(alloc, path, text)?;
    fields_at(alloc, path, package_spec(alloc, &node))
}

/// The name of a release.
pub(crate) fn release_at(alloc: Global, path: &[u8], text: &[u8]) -> Result<Name, ReleaseFault>
    ensures { IsAnswer result (spec_at a_release path.now text.now) }
{
    let node = node_at(alloc, path, text)?;
    fields_at(alloc, path, release_name(alloc, &node))
}

/// Refuses a spec that has not the name of its folder.
pub(crate) fn check_name(
    alloc: Global,
    path: &[u8],
    folder: &[u8],
    name: &Name,
) -> Result<(), ReleaseFault>
    ensures { IsAnswerSeen (λ _. true) result (check_name path.now folder.now name.now) }
{
    if name.as_bytes() == folder {
        Ok(())
    } else {
        name_differs(alloc, path)
    }
}
