//! How each instance of a deployment is to stand: its machine, what is applied to it, its disk and its state.
#![tactic(auto)]

mod applied;
mod filed;
mod known;
mod listing;
mod machine;
mod moving;
mod row;
mod scene;
mod state;

pub use listing::rows;
pub use moving::check_disks;
pub use scene::Scene;
