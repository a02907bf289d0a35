//! What is read of the entries of a permitted history stands for what they tell, and each of them is allowed by what was read of
//! those before it, also where they are stored in the older format, or a snapshot in the place of those of earlier sessions.
#![tactic(auto)]

mod entries;

pub use entries::{what_is_read_agrees, what_is_read_is_allowed, what_is_read_stands};
