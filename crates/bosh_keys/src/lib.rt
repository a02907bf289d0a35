//! Which packages a deployment needs compiled, and for which stemcells.
#![tactic(auto)]

mod deployment;
mod gathered;
mod key;
mod laws;
mod packages;

pub use deployment::keys;
pub use laws::{keys_are_determined, used_releases_are_alike, used_releases_are_sound};
