//! Reads tables of cases, has each case answered, and tells which come out otherwise than they state; and tells how
//! long works take.
#![tactic(auto)]

mod bench;
mod case;
mod program;
mod source;
mod table;
mod tally;

pub use program::run;
