//! Links: which provider each consumer of a deployment is tied to.
#![tactic(auto)]

mod candidate;
mod candidates;
mod consumer;
mod fault;
mod provider;
mod resolution;
mod table;

pub use candidate::Candidate;
pub use candidates::Candidates;
pub use consumer::{Consumer, Source};
pub use fault::LinkFault;
pub use provider::Provider;
pub use resolution::resolve;
