//! A large deployment that is made from a number: its cloud config, its release and its manifest, as files.
#![tactic(auto)]

mod files;
mod piece;
mod texts;

pub use files::release;
pub use texts::{cloud_config, groups, manifest};
