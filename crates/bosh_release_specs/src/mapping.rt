//! The values of a mapping, in the order of their keys.
ghost use Rattle.std.specs.Prelude.{◌≡◌, IfErr, IfOk, [], map};
ghost use Rattle.bosh_fields.specs.declared.fault.FieldFault.TheVariants.{Memory};
ghost use Rattle.bosh_yaml.specs.Tree.{fields_of};
ghost use Rattle.bosh_yaml.specs.View.{pair_of, tree_of};
ghost use Rattle.bosh_fields.specs.Answer.{IsAnswer, IsAnswerSeen};
ghost use Rattle.bosh_release_specs.specs.JobSpec.{a_mapping_of, each_field, fields_at};
ghost use Rattle.bosh_release_specs.specs.Names.{by_name};

use bosh_base::Text;
use bosh_fields::{FieldFault, FromField, value_at, wrong_kind};
use bosh_yaml::{Node, Str};
use std::alloc::{AllocError, Global};
use std::collections::BTreeMap;

fn key_of(alloc: Global, key: &Str) -> Result<Text, AllocError>
    ensures { IfOk result (λ text. text ≡ key.now) }
{
    Ok(Text::from(Vec::from_slice(alloc, key.as_bytes())?))
}

// A key with its value.
fn field<T: FromField>(alloc: Global, key: &Str, node: &Node) -> Result<(Text, T), FieldFault>
    ensures value { IsAnswerSeen (λ pair. pair.1) result (T.kind key.now (tree_of node.now)) }
    ensures key { IfOk result (λ pair. pair.0 ≡ key.now) }
{
    let value = T::from_field(alloc, key.as_bytes(), node)?;
    Ok((key_of(alloc, key)?, value))
}

// The values as they are written.
fn each_field<T: FromField>(
    alloc: Global,
    fields: &[(Str, Node)],
) -> Result<Vec<(Text, T)>, FieldFault>
    ensures { IsAnswerSeen (λ values. values.items) result (each_field T.kind (fields_of (map pair_of fields.now))) }
{
    let mut values = Vec::new(alloc);
    for (key, node) in fields {
        values.push(field(alloc, key, node)?)?;
    }
    Ok(values)
}

fn in_order<T: Drop>(alloc: Global, values: Vec<(Text, T)>) -> Result<BTreeMap<Text, T>, FieldFault>
    ensures named { IfOk result (λ named. named.entries ≡ by_name values.items) }
    ensures err { IfErr result (λ fault. fault ≡ Memory) }
{
    let mut named = BTreeMap::new(alloc);
    for (key, value) in values {
        named.insert(key, value)?;
    }
    Ok(named)
}

fn mapping_of<T: FromField>(
    alloc: Global,
    key: &[u8],
    node: &Node,
) -> Result<BTreeMap<Text, T>, FieldFault>
    ensures { IsAnswerSeen (λ named. named.entries) result (a_mapping_of T.kind key.now (tree_of node.now)) }
{
    match node {
        Node::Map(pairs) => in_order(alloc, each_field(alloc, pairs.as_slice())?),
        _ => wrong_kind(alloc, key),
    }
}

/// The values of the mapping at a key, each of a kind; there are none where nothing stands there.
pub(crate) fn fields_at<T: FromField>(
    alloc: Global,
    holder: &Node,
    key: &[u8],
) -> Result<BTreeMap<Text, T>, FieldFault>
    ensures { IsAnswerSeen (λ named. named.entries) result (fields_at T.kind key.now (tree_of holder.now)) }
{
    match value_at(holder, key) {
        Some(node) => mapping_of(alloc, key, node),
        None => Ok(BTreeMap::new(alloc)),
    }
}
