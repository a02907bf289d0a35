//! What a manifest uses: releases, stemcells and what the cloud config has, each by its name.
#![tactic(auto)]

mod edition;
mod fault;
mod known;
mod sources;
mod usage;
mod used;

pub use fault::{GoalFault, Kind};
pub use usage::uses;
pub use used::{UsedGroup, UsedJob};
