//! The parts of deployment manifests: releases and stemcells, update rules, networks, jobs with their links, disks.
#![tactic(auto)]

mod disk;
mod job;
mod link;
mod links;
mod member;
mod network;
mod source;
mod unoffered;

pub use disk::{DiskUse, group_disk};
pub use job::{JobUse, Properties, group_jobs};
pub use link::{Consume, Offering, Origin, Provide};
pub use member::{Member, required_members, some_items};
pub use network::{NetUse, group_networks};
pub use source::{ReleaseUse, StemcellUse, sources};
pub use unoffered::is_text;
