//! What benches of deploys share: the deploy of many instances in eight groups, and how it is timed.
#![tactic(auto)]

mod deploys;
mod timing;

pub use deploys::{CONFIG, time_of_deploy};
pub use timing::timed;
