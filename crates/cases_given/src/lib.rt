//! What cases give, what calls come to, and the calls that a table asks.
#![tactic(auto)]

mod bytes;
mod calls;
mod fault;
mod given;
mod outcome;
mod plain;
mod telling;
mod timing;

pub use bytes::{bytes_of, characters, number_of};
pub use calls::{Calls, Case};
pub use fault::CaseFault;
pub use given::{
    Given, all, both, cut, each, field, four, items, list, pair, text_at, there, two, variant,
    word_of,
};
pub use outcome::Outcome;
pub use telling::{named, refused, told, words_of};
pub use timing::timed;
