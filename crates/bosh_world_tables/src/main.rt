//! Answers the cases of the tables of sites that its words name, or of all tables of the current folder, and tells each
//! that comes out otherwise than it states.
#![tactic(auto)]

mod calls;
mod stand;
mod steps;
mod stops;
mod told;

use crate::calls::SiteCalls;
use bosh_case_runner::run_tables;
use std::io;
use std::process::ExitCode;

fn main(rt: HostRuntime) -> io::Result<ExitCode> {
    run_tables(&rt, &SiteCalls)
}
