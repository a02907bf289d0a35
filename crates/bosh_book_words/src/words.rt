//! Plain values that words write.
use bosh_case_words::word;
use bosh_cases::{CaseFault, Given};
use bosh_yaml::{Node, Str};
use std::alloc::Global;
use std::str::SplitWhitespace;

/// The plain value that a word writes.
pub fn written<T: Given>(alloc: Global, word: &str) -> Result<T, CaseFault> {
    let text = Str::of(alloc, word.as_bytes())?;
    T::of(alloc, &Node::Text(text))
}

/// The plain value that the next word writes.
pub fn next<T: Given>(alloc: Global, words: &mut SplitWhitespace<'_>) -> Result<T, CaseFault> {
    written(alloc, word(words)?)
}
