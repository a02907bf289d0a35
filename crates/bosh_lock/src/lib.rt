//! A lock round a value whose history only grows. Who enters knows that the value's list extends what he has seen of
//! it, and who leaves may only have made it longer.
#![tactic(auto)]

mod chronicle;
mod fault;
mod gate;
mod laws;
mod lock;
mod pass;
mod rule;
mod slots;
mod steps;
mod turn;

pub use chronicle::Chronicle;
pub use fault::LockFault;
pub use laws::{what_all_have, what_crosses_threads};
pub use lock::SiteLock;
pub use pass::Pass;
pub use rule::{Growth, View};
pub use turn::Turn;
