//! Things that are found by their names.
#![tactic(auto)]

mod named;
mod table;

pub use named::Named;
pub use table::{Table, add, find, has, table_of};
