//! What cases give as files: the folders of releases, and the texts of manifests.
#![tactic(auto)]

mod manifests;
mod releases;

pub use manifests::manifest;
pub use releases::{files, release};
