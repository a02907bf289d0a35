//! In which order packages are compiled, when one may be, and the digest of what a compilation gives.
#![tactic(auto)]

mod fault;
mod key_set;
mod laws;
mod level;
mod listing;
mod order;
mod readiness;
mod table;

pub use fault::CompileFault;
pub use key_set::KeySet;
pub use laws::{levels_are_determined, rank_shows_no_cycle};
pub use listing::built;
pub use order::levels;
pub use readiness::ready;
