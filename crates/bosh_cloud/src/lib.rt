//! The simulated cloud: it answers the calls of a cloud provider interface and of agents, and keeps each call that
//! changed it in a store.
#![tactic(auto)]

mod cloud;
mod fault;
mod laws;
mod load;
mod note;
mod perform;

pub use cloud::SimCloud;
pub use fault::CloudFault;
pub use laws::{what_is_kept_is_loaded, what_is_loaded_is_kept, what_was_done_is_loaded};
