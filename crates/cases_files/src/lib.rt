//! What cases give as files: the folders of releases, and the texts of cloud configs and manifests; and outcomes of calls
//! whose faults the director tells.
#![tactic(auto)]

mod refusals;
mod releases;
mod texts;

pub use refusals::{outcome, refusal};
pub use releases::{files, release};
pub use texts::{config, manifest, node_of};
