//! Snapshots that are written of what is known at the moments of a permitted history are such as a store may begin with.
#![tactic(auto)]

mod snapshots;

pub use snapshots::{compiled_keys_stand_in_order, snapshots_of_what_is_known_are_sound};
