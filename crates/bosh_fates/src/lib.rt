//! Which calls on a cloud fail: fates that wait for their calls, as an operator of a test sets them.
#![tactic(auto)]

mod fate;
mod laws;

pub use fate::{Doom, Fate, come_nearer, decided, met};
pub use laws::fates_meet_their_calls;
