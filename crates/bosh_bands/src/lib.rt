//! Bands of addresses in order, and the least address of which something holds.
#![tactic(auto)]

mod band;
mod common;
mod laws;
mod order;
mod reserved;

pub use band::{is_in_some, is_within};
pub use common::first_common;
pub use laws::least_is_least;
pub use order::in_order;
pub use reserved::{is_reserved, reserved_bands};
