//! Manifests, in words.
use crate::groups::push_group;
use bosh_base::{Name, Seq, Text};
use bosh_manifest::{Contents, Group, Manifest, check};
use bosh_yaml::{Node, read};
use cases_files::outcome;
use cases_given::{CaseFault, Outcome, pair};
use cases_words::{Told, push};
use std::alloc::Global;
use std::fmt;

// The name of a manifest, and a line for each release and stemcell.
#[derive(Clone, Copy)]
struct Heading<'a>(&'a Contents);

fn add_version<W: fmt::Write>(f: &mut fmt::Formatter<W>, version: &Option<Text>) -> fmt::Result {
    match version {
        Some(version) => write!(f, " {}\n", Told(version)),
        None => f.write_str(" latest\n"),
    }
}

fn add_uploads<W: fmt::Write>(f: &mut fmt::Formatter<W>, it: &Contents) -> fmt::Result {
    for release in &it.releases {
        write!(f, "release {}", Told(&release.name))?;
        add_version(f, &release.version)?;
    }
    for stemcell in &it.stemcells {
        write!(
            f,
            "stemcell {} {}",
            Told(&stemcell.alias),
            Told(&stemcell.os)
        )?;
        add_version(f, &stemcell.version)?;
    }
    Ok(())
}

impl fmt::Display for Heading<'_> {
    fn fmt<W: fmt::Write>(&self, f: &mut fmt::Formatter<W>) -> fmt::Result {
        write!(f, "{}\n", Told(&self.0.name))?;
        add_uploads(f, self.0)
    }
}

fn push_groups(alloc: Global, text: &mut Vec<u8>, groups: &Seq<Group>) -> Result<(), CaseFault> {
    for group in groups {
        push_group(alloc, text, group)?;
    }
    Ok(())
}

// A line for each part of a manifest.
fn told(alloc: Global, manifest: &Manifest) -> Result<Vec<u8>, CaseFault> {
    let contents = manifest.contents();
    let mut text = Vec::new(alloc);
    push(alloc, &mut text, &Heading(contents))?;
    push_groups(alloc, &mut text, &contents.groups)?;
    Ok(text)
}

fn checked_text(alloc: Global, deployment: &Name, text: &Text) -> Result<Outcome, CaseFault> {
    let node = read(alloc, text.as_slice())?;
    outcome(alloc, check(alloc, &node, deployment), told)
}

/// What a text is checked as, for a deployment.
pub(crate) fn checked(alloc: Global, given: &Node) -> Result<Outcome, CaseFault> {
    let (deployment, text) = pair(alloc, given)?;
    checked_text(alloc, &deployment, &text)
}
