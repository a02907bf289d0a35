ghost use Rattle.std.specs.Prelude.{[], true};
ghost use Rattle.bosh_yaml.specs.View.{tree_of};
ghost use Rattle.bosh_fields.specs.Answer.{IsAnswer, IsAnswerSeen};
ghost use Rattle.bosh_release_specs.specs.JobSpec.{list_at};
ghost use Rattle.bosh_release_specs.specs.PackageSpec.{a_package_spec, a_release, nothing_excluded};

use bosh_base::{Name, Seq, Text};
use bosh_fields::{
    FieldFault, FromField, check_mapping, check_nothing, optional, required, value_at,
};
use bosh_yaml::Node;
use std::alloc::Global;

/// What the spec of a package says.
#[derive(Drop)]
pub struct PackageDescription {
    pub name: Name,
    /// The packages that it needs compiled.
    pub dependencies: Seq<Name>,
    /// Patterns of files, as they are written.
    pub files: Seq<Text>,
}

/// The list at a key; it is empty where nothing stands there.
pub(crate) fn list_at<T: FromField>(
    alloc: Global,
    holder: &Node,
    key: &[u8],
) -> Result<Seq<T>, FieldFault>
    ensures { IsAnswer result (list_at T.kind key.now (tree_of holder.now)) }
{
    match optional::<Seq<T>>(alloc, holder, key)? {
        Some(items) => Ok(items),
        None => Ok(Seq::new(alloc)),
    }
}

// Refuses files that are left out.
#[tactic(auto, unfolding(crate::specs::PackageSpec::nothing_excluded))]
fn check_excluded(alloc: Global, node: &Node) -> Result<(), FieldFault>
    ensures { IsAnswerSeen (λ _. true) result (nothing_excluded (tree_of node.now)) }
{
    check_nothing(alloc, node, b"excluded_files")
}

/// What the spec of a package says, which is a mapping with `name`, and perhaps `dependencies` and `files`. The fault
/// names the key (bosh.io, "Packages", "Package specification").
// Dear to prove: the parts that were read are alive wherever the next one may be refused.
pub fn package_spec(alloc: Global, node: &Node) -> Result<PackageDescription, FieldFault>
    ensures { IsAnswer result (a_package_spec [] (tree_of node.now)) }
{
    check_mapping(alloc, b"", node)?;
    let name = required(alloc, node, b"name")?;
    let dependencies = list_at(alloc, node, b"dependencies")?;
    let files = list_at(alloc, node, b"files")?;
    check_excluded(alloc, node)?;
    Ok(PackageDescription {
        name,
        dependencies,
        files,
    })
}

/// The name of a release, which is at `name`, or at `final_name` where that is absent.
pub fn release_name(alloc: Global, node: &Node) -> Result<Name, FieldFault>
    ensures { IsAnswer result (a_release [] (tree_of node.now)) }
{
    check_mapping(alloc, b"", node)?;
    match value_at(node, b"name") {
        Some(name) => Name::from_field(alloc, b"name", name),
        None => required(alloc, node, b"final_name"),
    }
}
