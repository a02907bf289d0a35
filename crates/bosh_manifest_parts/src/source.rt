//! The releases and stemcells that a deployment uses.
ghost use Rattle.std.specs.Prelude.{◌≡◌, IfOk, Ok};
ghost use Rattle.std.specs.Fmt.{signed_decimal};
ghost use Rattle.bosh_yaml.specs.View.{tree_of};
ghost use Rattle.bosh_fields.specs.Answer.{IsAnswer};
ghost use Rattle.bosh_manifest_parts.specs.Source.{sources, version_in, version_text};

use crate::unoffered::check_absent;
use bosh_base::{Name, Seq, Text, is_version};
use bosh_fields::{
    Distinct, FieldFault, FromField, NamedItem, UNLIMITED, item_name, required, required_both,
    wrong_kind,
};
use bosh_yaml::Node;
use std::alloc::{AllocError, Global};
use std::marker::Model;

/// A release that a deployment uses.
#[derive(Drop)]
pub struct ReleaseUse {
    pub name: Name,
    /// The latest, where there is none.
    pub version: Option<Text>,
}

/// A stemcell that groups of a deployment use.
#[derive(Drop)]
pub struct StemcellUse {
    /// The name that groups know it by.
    pub alias: Name,
    /// Its operating system.
    pub os: Name,
    /// The latest, where there is none.
    pub version: Option<Text>,
}

/// A version that is asked for.
#[derive(Drop)]
struct AskedVersion {
    version: Option<Text>,
}

impl Model for AskedVersion {
    ghost use Rattle.std.specs.Prelude.{ℕ, List, Option};

    ghost Value = { Option (List ℕ) };

    ghost view = { λ asked. asked.version };
}

impl AskedVersion {
    fn into_version(self) -> Option<Text>
        ensures { result ≡ self }
    {
        let AskedVersion { version } = self;
        version
    }
}

fn text_of(alloc: Global, bytes: &[u8]) -> Result<Text, AllocError>
    ensures { IfOk result (λ text. text ≡ bytes.now) }
{
    Ok(Text::from(Vec::from_slice(alloc, bytes)?))
}

fn decimal(alloc: Global, number: i64) -> Result<Text, AllocError>
    ensures { IfOk result (λ text. text ≡ signed_decimal number) }
{
    let mut digits = itoa::Buffer::new();
    text_of(alloc, digits.format(number).as_bytes())
}

fn version_text(alloc: Global, key: &[u8], node: &Node) -> Result<Text, FieldFault>
    ensures { IsAnswer result (version_text key.now (tree_of node.now)) }
{
    match node {
        Node::Text(text) => Ok(text_of(alloc, text.as_bytes())?),
        Node::Int(number) => Ok(decimal(alloc, *number)?),
        _ => wrong_kind(alloc, key),
    }
}

fn version_in(alloc: Global, key: &[u8], text: Text) -> Result<Option<Text>, FieldFault>
    ensures { IsAnswer result (version_in key.now text) }
{
    if text.as_slice() == b"latest".as_slice() {
        Ok(None)
    } else if is_version(text.as_slice()) {
        Ok(Some(text))
    } else {
        wrong_kind(alloc, key)
    }
}

impl FromField for AskedVersion {
    ghost use Rattle.bosh_manifest_parts.specs.Source.{a_version};

    ghost kind = { a_version };

    fn from_field(alloc: Global, key: &[u8], node: &Node) -> Result<Self, FieldFault> {
        let version = version_in(alloc, key, version_text(alloc, key, node)?)?;
        Ok(AskedVersion { version })
    }
}

impl NamedItem for ReleaseUse {
    ghost use Rattle.std.specs.Prelude.{codes};
    ghost use Rattle.bosh_fields.specs.Distinct.{name_in};
    ghost use Rattle.bosh_manifest_parts.specs.Source.{a_release};

    ghost naming = { name_in (codes "name") };

    ghost item = { a_release };

    fn name(alloc: Global, key: &[u8], node: &Node) -> Result<Name, FieldFault> {
        item_name(alloc, b"name", key, node)
    }

    fn item(alloc: Global, name: Name, node: &Node) -> Result<Self, FieldFault> {
        let asked = required::<AskedVersion>(alloc, node, b"version")?;
        Ok(ReleaseUse {
            name,
            version: asked.into_version(),
        })
    }
}

impl NamedItem for StemcellUse {
    ghost use Rattle.std.specs.Prelude.{codes};
    ghost use Rattle.bosh_fields.specs.Distinct.{name_in};
    ghost use Rattle.bosh_manifest_parts.specs.Source.{a_stemcell};

    ghost naming = { name_in (codes "alias") };

    ghost item = { a_stemcell };

    fn name(alloc: Global, key: &[u8], node: &Node) -> Result<Name, FieldFault> {
        item_name(alloc, b"alias", key, node)
    }

    fn item(alloc: Global, alias: Name, node: &Node) -> Result<Self, FieldFault> {
        let (os, asked) = required_both::<Name, AskedVersion>(alloc, node, b"os", b"version")?;
        check_absent(alloc, node, b"name")?;
        Ok(StemcellUse {
            alias,
            os,
            version: asked.into_version(),
        })
    }
}

/// The releases and stemcells of a manifest.
pub fn sources(
    alloc: Global,
    node: &Node,
) -> Result<(Seq<ReleaseUse>, Seq<StemcellUse>), FieldFault>
    ensures { IsAnswer result (sources (tree_of node.now)) }
{
    let (releases, stemcells) = required_both::<
        Distinct<ReleaseUse, UNLIMITED>,
        Distinct<StemcellUse, UNLIMITED>,
    >(alloc, node, b"releases", b"stemcells")?;
    Ok((releases.into_items(), stemcells.into_items()))
}
