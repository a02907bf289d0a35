//! Cloud-check: what differs between the records of a deployment and the cloud.
#![tactic(auto)]

mod examination;
mod facts;
mod fault;
mod loose;
mod machines;
mod numbers;
mod owned;
mod rows;

pub use examination::examine;
pub use fault::CckFault;
