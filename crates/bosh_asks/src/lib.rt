//! What the director is asked to do with deployments and disks, and how the task that does it opens.
#![tactic(auto)]

mod ask;
mod changed;
mod config;
mod consumers;
mod deletion;
mod deploying;
mod differing;
mod disks;
mod fault;
mod limits;
mod locks;
mod naming;
mod obsolete;
mod opened;
mod plan;
mod planned;
mod pushing;

pub use ask::{Ask, Deploy};
pub use config::config_in;
pub use differing::differs;
pub use fault::BookFault;
pub use opened::opening;
