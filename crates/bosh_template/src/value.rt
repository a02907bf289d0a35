//! The values of properties.
ghost use Rattle.std.specs.Prelude.{◌≡◌, Ok, Some, option_map};
ghost use Rattle.bosh_template.specs.Output.{Adds};
ghost use Rattle.bosh_template.specs.Setting.{at_path, given_setting, literal, path_of, setting_of, setting_text, truth};
ghost use Rattle.bosh_template.specs.Value.{setting};
ghost use Rattle.bosh_yaml.specs.View.{tree_of};

use crate::TemplateFault;
use crate::cut::cut_at;
use crate::output::Output;
use bosh_base::{Copyable, Setting, Text};
use bosh_yaml::Node;
use std::alloc::Global;

/// A setting, where it stands.
#[derive(Clone, Copy)]
pub(crate) enum Value<'a> {
    Text(&'a [u8]),
    Bool(bool),
    Int(i64),
    /// A list or a mapping.
    Compound,
}

// The value of a node; null is none.
fn value_of(node: &Node) -> Option<Value<'_>>
    ensures { option_map setting result ≡ setting_of (Some (tree_of node.now)) }
{
    match node {
        Node::Null => None,
        Node::Bool(b) => Some(Value::Bool(*b)),
        Node::Int(n) => Some(Value::Int(*n)),
        Node::Text(text) => Some(Value::Text(text.as_bytes())),
        Node::List(_) | Node::Map(_) => Some(Value::Compound),
    }
}

// What stands at the dotted path.
fn at_path<'a>(node: &'a Node, name: &[u8]) -> Option<&'a Node>
    ensures { option_map (λ n. tree_of n.now) result ≡ at_path (path_of name.now) (Some (tree_of node.now)) }
{
    let mut node = node;
    let mut rest = name;
    while let Some((key, after)) = cut_at(b'.', rest) {
        node = node.find(key)?;
        rest = after;
    }
    node.find(rest)
}

/// What the manifest gives to a property.
pub(crate) fn given_value<'a>(given: &'a Node, name: &Text) -> Option<Value<'a>>
    ensures { option_map setting result ≡ given_setting name.now (tree_of given.now) }
{
    value_of(at_path(given, name.as_slice())?)
}

/// A setting of a release as a value.
pub(crate) fn setting_value(given: &Setting) -> Value<'_>
    ensures { setting result ≡ given.now }
{
    match given {
        Setting::Scalar(text) => Value::Text(text.as_slice()),
        Setting::Compound => Value::Compound,
    }
}

/// A literal of a lookup as a value.
pub(crate) fn literal_value(fallback: &Option<Text>) -> Option<Value<'_>>
    ensures { option_map setting result ≡ literal fallback.now }
{
    match fallback {
        Some(text) => Some(Value::Text(text.as_slice())),
        None => None,
    }
}

/// Adds `true` or `false`.
pub(crate) fn add_truth(output: &mut Output, yes: bool) -> Result<(), TemplateFault>
    ensures { Adds result output.old output.new (Ok (truth yes)) }
{
    if yes {
        output.add(b"true")
    } else {
        output.add(b"false")
    }
}

/// Adds the text of a property. A list or a mapping has none.
pub(crate) fn add_value(
    alloc: Global,
    name: &Text,
    value: Option<Value>,
    output: &mut Output,
) -> Result<(), TemplateFault>
    ensures { Adds result output.old output.new (setting_text name.now (option_map setting value.entry)) }
{
    match value {
        None => Err(TemplateFault::Missing {
            name: name.copy(alloc)?,
        }),
        Some(Value::Compound) => Err(TemplateFault::NotScalar {
            name: name.copy(alloc)?,
        }),
        Some(Value::Text(text)) => output.add(text),
        Some(Value::Bool(b)) => add_truth(output, b),
        Some(Value::Int(n)) => {
            let mut digits = itoa::Buffer::new();
            output.add(digits.format(n).as_bytes())
        }
    }
}
