//! Which calls are open, and which of them were performed.
#![tactic(auto)]

mod calls;

pub use calls::{Calls, OpenCall};
