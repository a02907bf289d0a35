//! Addresses for the instances of a deployment: those that they ask for, those that they keep, and the least free ones.
#![tactic(auto)]

mod assignment;
mod closed;
mod entries;
mod fault;
mod fixed;
mod holders;
mod kept;
mod laws;
mod networks;
mod owner;
mod search;
mod spares;
mod spot;
mod table;
mod want;

pub use assignment::assign;
pub use fault::PoolFault;
pub use laws::{
    assigned_addresses_are_different, each_address_is_one_of_its_network,
    nobody_else_holds_an_assigned_address, what_is_given_is_assigned,
};
pub use spares::spare;
pub use want::Want;
