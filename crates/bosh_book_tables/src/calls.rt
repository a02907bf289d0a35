//! The calls by their names.
use crate::stand::Stand;
use bosh_book_words::take_steps;
use bosh_cases::{Calls, CaseFault, Outcome};
use bosh_yaml::Node;
use std::alloc::Global;

/// The calls on books.
pub(crate) struct BookCalls;

impl Calls for BookCalls {
    fn answer(
        &self,
        alloc: Global,
        call: &str,
        setting: &Node,
        given: &Node,
    ) -> Result<Outcome, CaseFault> {
        match call {
            "book.run" => run(alloc, setting, given),
            _ => Err(CaseFault::NoSuchCall),
        }
    }
}

// What a book answers to steps, and the entries that it has after them.
fn run(alloc: Global, setting: &Node, given: &Node) -> Result<Outcome, CaseFault> {
    let mut stand = Stand::new(alloc);
    let taken = take_steps(&mut stand, setting, given);
    stand.into_outcome(taken)
}
