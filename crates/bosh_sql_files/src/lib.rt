//! Opens the two files of a store. Few of their pages are kept in memory, and a store that begins gets small ones.
#![tactic(auto)]

mod fault;
mod files;
mod path;

pub use fault::OpenFault;
pub use files::{open_files, options_of};
pub use path::open;
