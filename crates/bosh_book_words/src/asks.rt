//! What a step asks for.
use crate::words::next;
use bosh_asks::{Ask, Deploy};
use bosh_base::{Digest, Name, Text};
use bosh_case_files::manifest;
use bosh_case_words::number;
use bosh_cases::{CaseFault, Given, both, field};
use bosh_yaml::Node;
use std::alloc::Global;
use std::str::SplitWhitespace;

fn flag(node: &Node, key: &[u8]) -> bool {
    matches!(node.find(key), Some(Node::Bool(true)))
}

// As `{"deploy": MANIFEST, "dep": NAME, "recreate": true, "fix": true}`.
pub(crate) fn deploy(alloc: Global, node: &Node) -> Result<Ask, CaseFault> {
    let given: Result<(Name, Text), CaseFault> = both(
        field(alloc, node, "dep"),
        field(alloc, node, "deploy"),
    );
    let (dep, text) = given?;
    let manifest = manifest(alloc, &dep, &text)?;
    Ok(Ask::Deploy(Deploy {
        manifest,
        recreate: flag(node, b"recreate"),
        fix: flag(node, b"fix"),
        source: Digest([0; 32]),
    }))
}

fn halt(alloc: Global, words: &mut SplitWhitespace<'_>, hard: bool) -> Result<Ask, CaseFault> {
    Ok(Ask::Halt {
        inst: next(alloc, words)?,
        hard,
    })
}

// What a word asks for, with what it names; nothing where it is no word of an ask.
pub(crate) fn asked(
    alloc: Global,
    verb: &str,
    words: &mut SplitWhitespace<'_>,
) -> Result<Option<Ask>, CaseFault> {
    let ask = match verb {
        "recreate" => next(alloc, words).map(Ask::Recreate),
        "start" => next(alloc, words).map(Ask::Start),
        "resolve" => next(alloc, words).map(Ask::Resolve),
        "stop" => halt(alloc, words, false),
        "stop_hard" => halt(alloc, words, true),
        "delete" => next(alloc, words).map(Ask::DeleteDeployment),
        "delete_disk" => number(words).map(Ask::DeleteDisk),
        "clean_up" => Ok(Ask::CleanUp),
        _ => return Ok(None),
    };
    Ok(Some(ask?))
}
