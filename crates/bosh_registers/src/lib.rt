//! What a cloud has, by number and by the calls that created it, and how it changes: tables of machines, of disks and of
//! who has them, which change by calls that take no memory, and grow beside the list of what was done.
#![tactic(auto)]

mod change;
mod created;
mod fault;
mod grow;
mod put;
mod put_fault;
mod register;
mod store;
mod tables;

pub use change::Change;
pub use created::Created;
pub use fault::InventoryFault;
pub use grow::{push, push_held, push_made};
pub use put::{keep, keep_held, keep_made};
pub use put_fault::PutFault;
pub use register::Register;
pub use tables::Tables;
