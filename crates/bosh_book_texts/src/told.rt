//! What a book answers, in words.
use bosh_base::TaskEnd;
use bosh_book::Added;
use bosh_case_texts::push_count;
use bosh_cases::{CaseFault, push_parts};

/// An answer or a refusal.
pub trait Told: Drop {
    /// Adds it in words. Want of memory is no answer.
    fn push_to(&self, text: &mut Vec<u8>) -> Result<(), CaseFault>;
}

/// What has no answer of its own was done.
impl Told for () {
    fn push_to(&self, text: &mut Vec<u8>) -> Result<(), CaseFault> {
        Ok(push_parts(text, &[b"ok"])?)
    }
}

impl Told for Added {
    fn push_to(&self, text: &mut Vec<u8>) -> Result<(), CaseFault> {
        let done = match self {
            Added::New => push_parts(text, &[b"new"]),
            Added::Same => push_parts(text, &[b"same"]),
        };
        Ok(done?)
    }
}

/// The number of a task that was opened.
#[derive(Clone, Copy, Debug, PartialEq, Eq)]
pub struct Opened(pub u64);

impl Told for Opened {
    fn push_to(&self, text: &mut Vec<u8>) -> Result<(), CaseFault> {
        Ok(push_count(text, b"task ", self.0)?)
    }
}

impl Told for TaskEnd {
    fn push_to(&self, text: &mut Vec<u8>) -> Result<(), CaseFault> {
        let done = match self {
            TaskEnd::Finished => push_parts(text, &[b"done"]),
            TaskEnd::Fault { n, .. } => push_count(text, b"failed ", *n),
            TaskEnd::Gone { n, .. } => push_count(text, b"gone ", *n),
            TaskEnd::Interrupted => push_parts(text, &[b"interrupted"]),
        };
        Ok(done?)
    }
}
