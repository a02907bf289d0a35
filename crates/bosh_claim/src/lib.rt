//! What a worker of a task is to do next, and which entry may come next, as functions of what is recorded.
#![tactic(auto)]

mod allowed;
mod beginning;
mod choice;
mod compile;
mod ending;
mod fault;
mod instance;
mod listed;
mod number;
mod opening;
mod phase;
mod snapshot;
mod sweep;
mod update;
mod updating;

pub use allowed::is_allowed;
pub use choice::{Choice, choose};
pub use fault::ClaimFault;
pub use phase::{Phase, present};
