//! The default of a property.
ghost use Rattle.std.specs.Prelude.{◌≡◌, IfOk, option_map};
ghost use Rattle.std.specs.Fmt.{signed_decimal};
ghost use Rattle.bosh_yaml.specs.View.{tree_of};
ghost use Rattle.bosh_template.specs.Setting.{setting_of, truth};

use bosh_base::{Setting, Text};
use bosh_fields::{FieldFault, FromField, check_mapping, value_at};
use bosh_yaml::Node;
use std::alloc::{AllocError, Global};
use std::marker::Model;

/// What stands under a property's name: a mapping, with its default if it has one.
#[derive(Drop)]
pub(crate) struct Fallback {
    setting: Option<Setting>,
}

impl Model for Fallback {
    ghost use Rattle.std.specs.Prelude.{Option};
    ghost use Rattle.bosh_base.specs.declared.release.Setting.{Setting};

    ghost Value = { Option Setting };

    ghost view = { λ fallback. fallback.setting };
}

impl Fallback {
    pub(crate) fn into_setting(self) -> Option<Setting>
        ensures { result ≡ self }
    {
        let Fallback { setting } = self;
        setting
    }
}

fn text_of(alloc: Global, bytes: &[u8]) -> Result<Text, AllocError>
    ensures { IfOk result (λ text. text ≡ bytes.now) }
{
    Ok(Text::from(Vec::from_slice(alloc, bytes)?))
}

fn truth(alloc: Global, yes: bool) -> Result<Text, AllocError>
    ensures { IfOk result (λ text. text ≡ truth yes) }
{
    if yes {
        text_of(alloc, b"true")
    } else {
        text_of(alloc, b"false")
    }
}

fn decimal(alloc: Global, number: i64) -> Result<Text, AllocError>
    ensures { IfOk result (λ text. text ≡ signed_decimal number) }
{
    let mut digits = itoa::Buffer::new();
    text_of(alloc, digits.format(number).as_bytes())
}

fn setting_of(alloc: Global, node: &Node) -> Result<Option<Setting>, AllocError>
    ensures { IfOk result (λ setting. setting ≡ setting_of (Some (tree_of node.now))) }
{
    let text = match node {
        Node::Null => return Ok(None),
        Node::List(_) | Node::Map(_) => return Ok(Some(Setting::Compound)),
        Node::Bool(yes) => truth(alloc, *yes),
        Node::Int(number) => decimal(alloc, *number),
        Node::Text(text) => text_of(alloc, text.as_bytes()),
    };
    Ok(Some(Setting::Scalar(text?)))
}

impl FromField for Fallback {
    ghost use Rattle.bosh_release_specs.specs.JobSpec.{a_fallback};

    ghost kind = { a_fallback };

    fn from_field(alloc: Global, key: &[u8], node: &Node) -> Result<Self, FieldFault> {
        check_mapping(alloc, key, node)?;
        let setting = match value_at(node, b"default") {
            Some(default) => setting_of(alloc, default)?,
            None => None,
        };
        Ok(Fallback { setting })
    }
}
