//! The book: what the director knows, over a store that keeps it, and what it permits to be done next.
#![tactic(auto)]

mod book;
mod claim;
mod ending;
mod faults;
mod folding;
mod granted;
mod kept;
mod made;
mod noting;
mod permit;
mod rigged;
mod settling;
mod standing;
mod starting;
mod tasks;
mod uploads;

pub use book::Book;
pub use bosh_asks::{Ask, BookFault, Deploy};
pub use claim::Claim;
pub use permit::Permit;
pub use uploads::Added;
