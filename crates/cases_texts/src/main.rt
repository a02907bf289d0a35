//! Answers the cases of the tables of texts, rules, lines, rows, entries, clouds and child programs that its words name,
//! or of all tables of the current folder, and tells each that comes out otherwise than it states; or tells how long a
//! work takes.
#![tactic(auto)]

mod calls;

use crate::calls::Texts;
use cases_run::run;
use std::io;
use std::process::ExitCode;

fn main(rt: HostRuntime) -> io::Result<ExitCode> {
    run(&rt, &Texts)
}
