//! Values of several parts.
use cases_given::CaseFault;
use std::alloc::Global;
use std::str::SplitWhitespace;

/// A value of several parts, each in words of its own.
pub(crate) trait Parts: Drop {
    /// Takes the part that the words write.
    fn set(&mut self, alloc: Global, words: &mut SplitWhitespace<'_>) -> Result<(), CaseFault>;
}

/// The value with the parts that a text has, one between semicolons.
pub(crate) fn with_parts<T: Parts>(alloc: Global, value: T, text: &str) -> Result<T, CaseFault> {
    let mut value = value;
    for part in text.split(';') {
        value.set(alloc, &mut part.split_whitespace())?;
    }
    Ok(value)
}
