//! Sites over stores in memory that can be damaged and made to fail, with the calls that they permitted and hold, and
//! workers that take turns.
#![tactic(auto)]

mod crew;
mod running;
mod store;
mod stubborn;

pub use crew::work;
pub use running::{Claimed, Running};
pub use store::{CloudStore, Harm, MemSite, do_harm, harmed, load, new_site, rig};
pub use stubborn::Stubborn;
