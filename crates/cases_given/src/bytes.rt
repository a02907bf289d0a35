//! How cases write bytes: a text of the characters U+0000 to U+00FF, each a byte, or a list of such texts and of
//! repetitions `{"times": N, "of": TEXT}`.
use crate::CaseFault;
use bosh_yaml::{Node, Str};
use std::alloc::Global;
use std::str;

/// The characters of a text that a case has.
pub fn characters(text: &Str) -> Result<&str, CaseFault> {
    match str::from_utf8(text.as_bytes()) {
        Ok(characters) => Ok(characters),
        Err(_) => Err(CaseFault::Form),
    }
}

/// The number of a node, from 0 on.
pub fn number_of(node: &Node) -> Result<u64, CaseFault> {
    match node {
        Node::Int(number) if *number >= 0 => Ok(number.unsigned_abs()),
        _ => Err(CaseFault::Form),
    }
}

fn push_text(bytes: &mut Vec<u8>, text: &Str) -> Result<(), CaseFault> {
    for character in characters(text)?.chars() {
        match u8::try_from(character as u32) {
            Ok(byte) => bytes.push(byte)?,
            Err(_) => return Err(CaseFault::Form),
        }
    }
    Ok(())
}

// How often a text stands, and which one.
fn times_of(node: &Node) -> Result<(u64, &Str), CaseFault> {
    let Some(times) = node.find(b"times") else {
        return Err(CaseFault::Form);
    };
    match node.find(b"of") {
        Some(Node::Text(text)) => Ok((number_of(times)?, text)),
        _ => Err(CaseFault::Form),
    }
}

fn push_unit(bytes: &mut Vec<u8>, unit: &[u8], times: u64) -> Result<(), CaseFault> {
    for _ in 0..times {
        bytes.extend_from_slice(unit)?;
    }
    Ok(())
}

fn push_repeated(alloc: Global, bytes: &mut Vec<u8>, node: &Node) -> Result<(), CaseFault> {
    let (times, text) = times_of(node)?;
    let mut unit = Vec::new(alloc);
    push_text(&mut unit, text)?;
    push_unit(bytes, unit.as_slice(), times)
}

fn push_parts(alloc: Global, bytes: &mut Vec<u8>, parts: &[Node]) -> Result<(), CaseFault> {
    for part in parts {
        match part {
            Node::Text(text) => push_text(bytes, text)?,
            _ => push_repeated(alloc, bytes, part)?,
        }
    }
    Ok(())
}

fn push_all(alloc: Global, bytes: &mut Vec<u8>, node: &Node) -> Result<(), CaseFault> {
    match node {
        Node::Text(text) => push_text(bytes, text),
        Node::List(parts) => push_parts(alloc, bytes, parts.as_slice()),
        _ => Err(CaseFault::Form),
    }
}

/// The bytes that a node of a case writes.
pub fn bytes_of(alloc: Global, node: &Node) -> Result<Vec<u8>, CaseFault> {
    let mut bytes = Vec::new(alloc);
    push_all(alloc, &mut bytes, node)?;
    Ok(bytes)
}
