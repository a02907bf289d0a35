//! What a case asks for, and under what.
use crate::uploads::{Uploads, uploaded};
use crate::views::view;
use bosh_base::{Goal, Seq, Stemcell, View};
use bosh_cloudcfg::Config;
use bosh_goal::goal;
use bosh_manifest::Manifest;
use bosh_manifest_names::GoalFault;
use bosh_yaml::Node;
use cases_files::manifest;
use cases_given::{CaseFault, Given, both};
use std::alloc::Global;

/// What a case gives at a key, or else the setting.
pub(crate) fn part<'a>(setting: &'a Node, given: &'a Node, key: &str) -> Option<&'a Node> {
    match given.find(key.as_bytes()) {
        Some(node) => Some(node),
        None => setting.find(key.as_bytes()),
    }
}

/// The value of a part. What is absent is null.
pub(crate) fn value<T: Given>(alloc: Global, part: Option<&Node>) -> Result<T, CaseFault> {
    match part {
        Some(node) => T::of(alloc, node),
        None => T::of(alloc, &Node::Null),
    }
}

/// The cloud config of a text, or none.
pub(crate) fn config(alloc: Global, part: Option<&Node>) -> Result<Option<Config>, CaseFault> {
    match part {
        None | Some(Node::Null) => Ok(None),
        Some(text) => Ok(Some(cases_files::config(alloc, text)?)),
    }
}

fn manifest_of(alloc: Global, setting: &Node, given: &Node) -> Result<Manifest, CaseFault> {
    let text = value(alloc, part(setting, given, "manifest"));
    let (dep, text) = both(value(alloc, part(setting, given, "dep")), text)?;
    manifest(alloc, &dep, &text)
}

/// A manifest, and what is uploaded.
#[derive(Drop)]
pub(crate) struct Asked {
    manifest: Manifest,
    uploads: Uploads,
    stemcells: Seq<Stemcell>,
}

impl Asked {
    pub(crate) fn of(alloc: Global, setting: &Node, given: &Node) -> Result<Asked, CaseFault> {
        let uploads = uploaded(alloc, part(setting, given, "releases"));
        let stemcells = value(alloc, part(setting, given, "stemcells"));
        let rest = both(uploads, stemcells);
        let (manifest, (uploads, stemcells)) = both(manifest_of(alloc, setting, given), rest)?;
        Ok(Asked {
            manifest,
            uploads,
            stemcells,
        })
    }

    /// What is recorded, as a part tells.
    pub(crate) fn view(&self, alloc: Global, part: Option<&Node>) -> Result<View, CaseFault> {
        let dep = &self.manifest.contents().name;
        match part {
            Some(node) => view(alloc, dep, &self.uploads, node),
            None => view(alloc, dep, &self.uploads, &Node::Null),
        }
    }

    /// The goal of the manifest.
    pub(crate) fn goal(
        &self,
        alloc: Global,
        config: Option<&Config>,
        view: &View,
        recreate: bool,
    ) -> Result<Goal, GoalFault> {
        goal(
            alloc,
            &self.manifest,
            config,
            self.uploads.as_slice(),
            self.stemcells.as_slice(),
            view,
            recreate,
        )
    }
}
