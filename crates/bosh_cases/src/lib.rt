//! What cases give, and what calls come to.
#![tactic(auto)]

mod bytes;
mod calls;
mod fault;
mod given;
mod outcome;
mod plain;
mod words;

pub use bytes::{bytes_of, characters};
pub use calls::Calls;
pub use fault::CaseFault;
pub use given::{Given, both, field, four, list, pair, two};
pub use outcome::Outcome;
pub use words::{joined, push_parts};
