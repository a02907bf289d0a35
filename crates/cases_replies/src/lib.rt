//! Answers cases on replies: their texts, and what an examination finds, as the text of its reply.
#![tactic(auto)]

mod calls;
mod examined;
mod lines;
mod replies;
mod tasks;
mod told;

pub use calls::Replies;
pub use replies::reply;
