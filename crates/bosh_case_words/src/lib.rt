//! What tables of cases write in words: calls and their answers, what machines and disks are made from, the machine and
//! the disks of a row, and lists of numbers.
#![tactic(auto)]

mod answers;
mod calls;
mod disks;
mod made;
mod rows;
mod texts;
mod words;

pub use texts::{numbers_text, shown, spec_word, want_text};
pub use words::{
    Worded, add, number, number_after, number_of, numbers, take, take_some, text_of, whole, word,
};
