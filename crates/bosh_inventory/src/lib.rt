//! What a cloud has: what was done to it, in order, with tables of the machines and disks that are there. From them
//! come the answers to the calls of a cloud provider interface and of agents, and what each call changes.
#![tactic(auto)]

mod add;
mod answers;
mod find;
mod inventory;
mod plan;
mod put;
mod step;

pub use answers::changes_by;
pub use inventory::Inventory;
pub use step::Step;
