//! Values at the keys of a mapping.
ghost use Rattle.std.specs.Prelude.{◌≡◌};
ghost use Rattle.std.specs.Option.{option_map};
ghost use Rattle.bosh_yaml.specs.View.{tree_of};
ghost use Rattle.bosh_fields.specs.Answer.{IsAnswer, both};
ghost use Rattle.bosh_fields.specs.Field.{optional, required, value_at};

use crate::fault::missing;
use crate::{FieldFault, FromField};
use bosh_yaml::Node;
use std::alloc::Global;

/// The value at a key. A key whose value is null counts as absent, and what is no mapping has no key.
pub fn value_at<'a>(holder: &'a Node, key: &[u8]) -> Option<&'a Node>
    ensures { option_map (λ node. tree_of node.now) result ≡ value_at key.now (tree_of holder.now) }
{
    match holder.find(key) {
        None | Some(Node::Null) => None,
        Some(node) => Some(node),
    }
}

/// The value at a key that has to be there. A key whose value is null counts as absent.
pub fn required<T: FromField>(alloc: Global, holder: &Node, key: &[u8]) -> Result<T, FieldFault>
    ensures { IsAnswer result (required T.kind key.now (tree_of holder.now)) }
{
    match value_at(holder, key) {
        Some(node) => T::from_field(alloc, key, node),
        None => missing(alloc, key),
    }
}

/// The value at a key that may be absent. A key whose value is null counts as absent.
pub fn optional<T: FromField>(
    alloc: Global,
    holder: &Node,
    key: &[u8],
) -> Result<Option<T>, FieldFault>
    ensures { IsAnswer result (optional T.kind key.now (tree_of holder.now)) }
{
    match value_at(holder, key) {
        Some(node) => Ok(Some(T::from_field(alloc, key, node)?)),
        None => Ok(None),
    }
}

/// The values at two keys that have to be there, so that a caller holds neither while the other is read.
pub fn required_both<A: FromField, B: FromField>(
    alloc: Global,
    holder: &Node,
    first_key: &[u8],
    second_key: &[u8],
) -> Result<(A, B), FieldFault>
    ensures { IsAnswer result
        (both (required A.kind first_key.now (tree_of holder.now))
        (required B.kind second_key.now (tree_of holder.now))) }
{
    let first = required(alloc, holder, first_key)?;
    Ok((first, required(alloc, holder, second_key)?))
}
