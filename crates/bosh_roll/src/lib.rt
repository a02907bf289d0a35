//! How the instances of a group are updated a few at a time, the canaries first.
#![tactic(auto)]

mod group_roll;
mod limit;
mod upd;

pub use group_roll::{GroupRoll, may_begin};
pub use limit::limit_of;
pub use upd::Upd;
