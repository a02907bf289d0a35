//! Keys whose values ask for nothing that is not offered.
ghost use Rattle.std.specs.Prelude.{◌≡◌, true};
ghost use Rattle.std.specs.Option.{option_map};
ghost use Rattle.bosh_yaml.specs.View.{tree_of};
ghost use Rattle.bosh_fields.specs.Answer.{IsAnswerSeen};
ghost use Rattle.bosh_manifest_parts.specs.Unoffered.{absent, is_text};

use bosh_fields::{FieldFault, unless_asked, value_at};
use bosh_yaml::Node;
use std::alloc::Global;

/// Whether a text stands at a key, this one.
pub fn is_text(word: &[u8], value: Option<&Node>) -> bool
    ensures { result ≡ is_text word.now (option_map (λ node. tree_of node.now) value.entry) }
{
    match value {
        Some(Node::Text(text)) => text.as_bytes() == word,
        _ => false,
    }
}

/// Refuses whatever stands at a key.
pub(crate) fn check_absent(alloc: Global, holder: &Node, key: &[u8]) -> Result<(), FieldFault>
    ensures { IsAnswerSeen (λ _. true) result (absent key.now (tree_of holder.now)) }
{
    unless_asked(alloc, key, value_at(holder, key).is_none())
}
