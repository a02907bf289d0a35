//! The program: a session over two stores, and how it ends.
#![tactic(auto)]

mod plain;
mod program;
mod stores;

pub use bosh_transcript::Status;
pub use plain::{Ended, session_plain};
pub use program::{run, usage};
pub use stores::{StoreName, unmade};
