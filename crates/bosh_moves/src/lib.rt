//! The moves of a site, in order, and what is still to be told of them.
#![tactic(auto)]

mod found;
mod history;

pub use history::History;
