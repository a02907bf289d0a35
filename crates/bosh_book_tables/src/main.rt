//! Answers the cases of the tables of books that its words name, or of all tables of the current folder, and tells each
//! that comes out otherwise than it states.
#![tactic(auto)]

mod calls;
mod foldings;
mod running;
mod stand;
mod steps;
mod store;
mod versions;

use crate::calls::BookCalls;
use bosh_case_runner::run_tables;
use std::io;
use std::process::ExitCode;

fn main(rt: HostRuntime) -> io::Result<ExitCode> {
    run_tables(&rt, &BookCalls)
}
