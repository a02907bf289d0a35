//! Deployment manifests.
#![tactic(auto)]

mod checked;
mod checking;
mod fault;
mod group;
mod manifest;

pub use checked::Manifest;
pub use checking::check;
pub use fault::ManifestFault;
pub use group::Group;
pub use manifest::Contents;
