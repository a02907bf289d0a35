//! The texts of replies.
#![tactic(auto)]

mod cloud;
mod disk;
mod fault;
mod instance;
mod joint;
mod named;
mod owner;
mod piece;
mod problem;
mod refusal;
mod release;
mod reply;
mod task;

pub use fault::ReportFault;
pub use named::{DiskNumber, text_of};
pub use piece::{Piece, Word};
pub use reply::say;
