//! What is done with owned values of many parts, once and for all types: to let such a value go is dear to prove in a
//! body that does other things too, and cheap in a function that is generic in its type.
#![tactic(auto)]

mod pairing;
mod place;
mod presence;

pub use pairing::{after, beside, passed};
pub use place::{let_go, put};
pub use presence::{is_some, is_there};
