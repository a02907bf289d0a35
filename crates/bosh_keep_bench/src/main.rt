//! Appends bodies to a table of a file, puts others in their place, or reads them, so that this can be timed and
//! killed. The body of a place is its number in decimal with zeros in front, 100 bytes in all. The words are the work,
//! the path of the file, and a number of bodies:
//!
//! - `append FILE N` appends so many, and prints how long that took, in microseconds;
//! - `each FILE N` appends so many one after the other, and prints how many there are each time one was answered;
//! - `replace FILE N` puts so many in the place of all, and prints how long that took, in microseconds;
//! - `load FILE` opens the file and loads its bodies, and prints how long that took, in microseconds;
//! - `count FILE` prints how many there are, where each is what was written at its place.
//!
//! Without words it does nothing.
#![tactic(auto)]

mod bodies;
mod fault;
mod work;

use crate::fault::WorkFault;
use crate::work::{Work, append_all, append_each, count_written, replace_all, work_of};
use bosh_keep_sql::SqlKeeper;
use bosh_ports::Keeper;
use bosh_sql_files::open;
use sqlite::{Alter, Connection};
use std::process::ExitCode;
use std::rt::Clock;
use std::time::Instant;
use std::{env, io};

/// The microseconds since a start.
fn time_since(clock: &impl Clock, start: Instant) -> Result<u64, WorkFault> {
    match start.elapsed(clock) {
        Ok(took) => Ok(u64::try_from(took.as_micros()).unwrap_or(u64::MAX)),
        Err(_) => Err(WorkFault::Clock),
    }
}

fn now(clock: &impl Clock) -> Result<Instant, WorkFault> {
    match Instant::now(clock) {
        Ok(start) => Ok(start),
        Err(_) => Err(WorkFault::Clock),
    }
}

fn time_of_append<K: Keeper>(
    rt: &HostRuntime,
    keeper: &mut K,
    count: u64,
) -> Result<u64, WorkFault> {
    let start = now(rt)?;
    append_all(rt.alloc(), keeper, count)?;
    time_since(rt, start)
}

fn time_of_replace<K: Keeper>(
    rt: &HostRuntime,
    keeper: &mut K,
    count: u64,
) -> Result<u64, WorkFault> {
    let start = now(rt)?;
    replace_all(rt.alloc(), keeper, count)?;
    time_since(rt, start)
}

/// Does a work, and answers what is left to be printed of it.
fn do_work<K: Keeper>(
    rt: &HostRuntime,
    keeper: &mut K,
    start: Instant,
    work: Work,
    count: u64,
) -> Result<Option<u64>, WorkFault> {
    match work {
        Work::Append => Ok(Some(time_of_append(rt, keeper, count)?)),
        Work::Each => {
            append_each(rt, rt.alloc(), keeper, count)?;
            Ok(None)
        }
        Work::Replace => Ok(Some(time_of_replace(rt, keeper, count)?)),
        Work::Load => Ok(Some(time_since(rt, start)?)),
        Work::Count => Ok(Some(count_written(rt.alloc(), keeper)?)),
    }
}

/// Prints what is left to be printed of a work. Whether it was done.
fn tell(rt: &HostRuntime, done: Result<Option<u64>, WorkFault>) -> io::Result<bool> {
    match done {
        Ok(Some(number)) => println!(rt; "{number}")?,
        Ok(None) => {}
        Err(fault) => eprintln!(rt; "not done: {fault:?}")?,
    }
    Ok(done.is_ok())
}

/// Does a work on the bodies of a database. Whether it was done.
fn do_over<S: Alter + Drop>(
    rt: &HostRuntime,
    connection: Connection<S>,
    start: Instant,
    work: Work,
    count: u64,
) -> io::Result<bool> {
    match SqlKeeper::load(rt.alloc(), connection) {
        Ok(mut keeper) => tell(rt, do_work(rt, &mut keeper, start, work, count)),
        Err((_connection, fault)) => tell(rt, Err(WorkFault::Refused(fault))),
    }
}

/// Opens the file of a path and does a work on its bodies. Whether it was done.
fn do_at(rt: &HostRuntime, path: &str, work: Work, count: u64) -> io::Result<bool> {
    let start = Instant::now(rt)?;
    match open(rt, path) {
        Ok(connection) => do_over(rt, connection, start, work, count),
        Err(fault) => {
            eprintln!(rt; "not opened: {fault:?}")?;
            Ok(false)
        }
    }
}

fn main(rt: HostRuntime) -> io::Result<ExitCode> {
    let mut words = env::args(&rt)?;
    let _program = words.next();
    let (Some(work), Some(path)) = (words.next(), words.next()) else {
        return Ok(ExitCode::SUCCESS);
    };
    let count = match words.next() {
        None => 0,
        Some(word) => word.as_str().parse::<u64>().unwrap_or(0),
    };
    let Some(work) = work_of(work.as_str()) else {
        return Ok(ExitCode::FAILURE);
    };
    let is_done = do_at(&rt, path.as_str(), work, count)?;
    drop(path);
    Ok(if is_done {
        ExitCode::SUCCESS
    } else {
        ExitCode::FAILURE
    })
}
