//! The addresses of a deployment's instances, and what its jobs offer to those that their links are tied to.
#![tactic(auto)]

mod gateway;
mod linking;
mod offering;
mod properties;
mod pushing;
mod siting;
mod socket;

pub use gateway::gateway_addr;
pub use linking::{Offered, links};
pub use offering::{Choice, offers};
pub use siting::{Sited, sites};
