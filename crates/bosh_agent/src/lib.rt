//! The agent of a machine: what it answers, and what its calls change.
#![tactic(auto)]

mod agent;
mod change;
mod fault;
mod numbered;
mod numbers;

pub use agent::{act, can_act, change_of, told, vm_of};
pub use change::{Change, put_contents};
pub use fault::AgentFault;
pub use numbered::{Disks, Numbered};
pub use numbers::{has, with_number, without_number};
