//! Releases.
ghost use Rattle.std.specs.Prelude.{IfOk};
ghost use Rattle.bosh_release.specs.Sound.{IsSound};

use bosh_base::{Release, Text};
use bosh_release::{File, a_collected_release_is_sound, collect};
use bosh_yaml::{Node, Pairs, Str};
use cases_given::{CaseFault, Given, both, field};
use std::alloc::Global;

fn file(alloc: Global, path: &Str, bytes: &Node) -> Result<File, CaseFault> {
    let path = Text::from(Vec::from_slice(alloc, path.as_bytes())?);
    let bytes = Text::of(alloc, bytes)?;
    Ok(File { path, bytes })
}

fn each(alloc: Global, pairs: &Pairs) -> Result<Vec<File>, CaseFault> {
    let mut files = Vec::new(alloc);
    for (path, bytes) in pairs.as_slice() {
        files.push(file(alloc, path, bytes)?)?;
    }
    Ok(files)
}

/// The files of a folder: a map from their paths to their bytes.
pub fn files(alloc: Global, node: &Node) -> Result<Vec<File>, CaseFault> {
    match node {
        Node::Map(pairs) => each(alloc, pairs),
        _ => Err(CaseFault::Form),
    }
}

fn files_of(alloc: Global, node: &Node) -> Result<Vec<File>, CaseFault> {
    match node.find(b"files") {
        Some(folder) => files(alloc, folder),
        None => Err(CaseFault::Form),
    }
}

fn collected(alloc: Global, files: &[File], version: &Text) -> Result<Release, CaseFault>
    ensures { IfOk result IsSound }
{
    a_collected_release_is_sound();
    match collect(alloc, files, version.as_slice()) {
        Ok(release) => Ok(release),
        Err(_) => Err(CaseFault::Form),
    }
}

/// The release of a folder: its `version`, and its `files`. Files that spell none have not the form of their call.
pub fn release(alloc: Global, node: &Node) -> Result<Release, CaseFault>
    ensures { IfOk result IsSound }
{
    let (files, version) = both(files_of(alloc, node), field(alloc, node, "version"))?;
    collected(alloc, files.as_slice(), &version)
}
