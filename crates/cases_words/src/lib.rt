//! What tables of cases write and tell in words: calls and their answers, what machines and disks are made from, the
//! machine and the disks of a row, and lists of numbers.
#![tactic(auto)]

mod answers;
mod calls;
mod disks;
mod made;
mod rows;
mod told;
mod words;

pub use told::{Flag, Told, push, push_part};
pub use words::{
    Worded, add, number, number_after, number_of, numbers, of_words, take, take_some, text_of,
    whole, word,
};
