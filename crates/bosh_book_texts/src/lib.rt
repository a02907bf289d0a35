//! What programs of cases tell of books in words: calls, their answers, entries, and what a book answers and refuses.
#![tactic(auto)]

mod calls;
mod entries;
mod faults;
mod told;

pub use calls::{push_answer, push_call, push_flag, push_make, push_permit, push_spec};
pub use entries::{push_entries, push_entry, push_loss};
pub use told::{Opened, Told};
