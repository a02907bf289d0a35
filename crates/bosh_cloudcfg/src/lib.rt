//! Cloud configs: the availability zones, networks, and types of machines and disks that deployments may use.
#![tactic(auto)]

mod assembly;
mod block;
mod checking;
mod config;
mod fault;
mod items;
mod laws;
mod passes;
mod place;
mod subnet;
mod tables;
mod zones;

pub use checking::check;
pub use config::{Compilation, Config, DiskKind, VmKind};
pub use fault::ConfigFault;
pub use laws::checked_subnets_are_apart;
