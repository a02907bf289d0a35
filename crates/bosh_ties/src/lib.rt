//! The links of a deployment: what its jobs provide and consume, and what each consumer is tied to.
#![tactic(auto)]

mod gathering;
mod linked_jobs;
mod spot;
mod tying;

pub use linked_jobs::provider;
pub use spot::Spot;
pub use tying::ties;
