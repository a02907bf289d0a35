//! What a site is made of may be sent to another thread.
#![tactic(auto)]

mod crossing;

pub use crossing::{what_books_cross, what_records_cross, what_sites_cross, what_works_cross};
