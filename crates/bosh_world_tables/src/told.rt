//! Answers of sites in words.
use bosh_book_texts::Told;
use bosh_case_texts::push_count;
use bosh_cases::{CaseFault, push_parts};

/// A truth value.
#[derive(Clone, Copy, Debug, PartialEq, Eq)]
pub(crate) struct Truth(pub(crate) bool);

impl Told for Truth {
    fn push_to(&self, text: &mut Vec<u8>) -> Result<(), CaseFault> {
        let done = match self.0 {
            true => push_parts(text, &[b"yes"]),
            false => push_parts(text, &[b"no"]),
        };
        Ok(done?)
    }
}

/// How many entries and effects there were before the first move.
#[derive(Clone, Copy, Debug, PartialEq, Eq)]
pub(crate) struct Before(pub(crate) (u64, u64));

impl Told for Before {
    fn push_to(&self, text: &mut Vec<u8>) -> Result<(), CaseFault> {
        push_count(text, b"entries ", self.0.0)?;
        Ok(push_count(text, b" effects ", self.0.1)?)
    }
}
