//! Named parts of bodies, which a setting has.
use crate::bodies::body_of;
use bosh_base::{Seq, Text};
use bosh_yaml::Node;
use cases_given::{CaseFault, Given};
use std::alloc::Global;

/// Bytes with a name.
#[derive(Drop)]
pub(crate) struct Part {
    name: Text,
    bytes: Vec<u8>,
}

/// The bytes of the part of a name.
pub(crate) fn find<'a>(parts: &'a [Part], name: &[u8]) -> Result<&'a [u8], CaseFault> {
    for part in parts {
        if part.name.as_slice() == name {
            return Ok(part.bytes.as_slice());
        }
    }
    Err(CaseFault::Form)
}

fn named_part(
    alloc: Global,
    name: &Text,
    words: &Text,
    before: &[Part],
) -> Result<Part, CaseFault> {
    let bytes = body_of(alloc, words.as_slice(), before)?;
    let name = Text::from(Vec::from_slice(alloc, name.as_slice())?);
    Ok(Part { name, bytes })
}

/// The parts of a setting: a list of names, each with words, which may name the parts before.
pub(crate) fn parts_of(alloc: Global, setting: &Node) -> Result<Vec<Part>, CaseFault> {
    let named: Seq<(Text, Text)> = Given::of(alloc, setting)?;
    let mut parts = Vec::new(alloc);
    for (name, words) in &named {
        let part = named_part(alloc, name, words, parts.as_slice())?;
        parts.push(part)?;
    }
    Ok(parts)
}
