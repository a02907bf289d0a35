//! The goal of a deployment: what a manifest asks for, with the cloud config, what is uploaded and what is recorded.
#![tactic(auto)]

mod addressing;
mod altering;
mod change;
mod desired;
mod freeing;
mod laws;
mod renewing;
mod whole;

pub use change::Change;
pub use laws::{goals_are_determined, rows_are_of_the_instances};
pub use renewing::anew;
pub use whole::goal;
