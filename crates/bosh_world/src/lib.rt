//! The site: what the director knows, the simulated cloud, and the one history of their moves.
#![tactic(auto)]

mod abandoning;
mod answers;
mod fault;
mod giving;
mod halting;
mod held;
mod jobs;
mod loading;
mod performing;
mod reading;
mod restarting;
mod settling;
mod site;
mod stopping;
mod tasks;
mod unloaded;
mod uploads;

pub use bosh_traps::{Armed, Trap};
pub use fault::SiteFault;
pub use held::HeldCall;
pub use site::Site;
pub use unloaded::Unloaded;
