//! What cases of books write in words: plain values, what is asked for, and steps; and what a case keeps on the way.
#![tactic(auto)]

mod asks;
mod places;
mod steps;
mod words;

pub use places::Places;
pub use steps::{
    Steps, Tasks, begin_in_map, begin_in_words, claim_in_words, over, take_steps, worker_of,
};
pub use words::{next, written};
