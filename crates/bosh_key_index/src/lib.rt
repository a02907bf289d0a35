//! Which numbers stand under which keys, kept so that the least number of a key is found without a walk.
#![tactic(auto)]

mod key_index;

pub use key_index::KeyIndex;
