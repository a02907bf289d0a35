//! Carries out a session of commands from standard input over stores in memory, so that its time is told apart from that
//! of the files.
#![tactic(auto)]

use bosh_ports::{FolderShelf, MemKeeper, Reading, Writing};
use bosh_program::{Status, session_plain};
use std::io;
use std::process::ExitCode;

fn session(rt: &HostRuntime) -> Status {
    let alloc = rt.alloc();
    let mut input = Reading::new(rt.reader());
    let mut out = Writing::new(io::writer(rt));
    let mut shelf = FolderShelf::new(rt);
    session_plain(
        alloc,
        &mut input,
        &mut out,
        &mut shelf,
        MemKeeper::new(alloc),
        MemKeeper::new(alloc),
    )
    .close()
}

fn main(rt: HostRuntime) -> ExitCode {
    ExitCode::from(session(&rt).code())
}
