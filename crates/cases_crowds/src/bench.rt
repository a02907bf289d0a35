//! How long it takes to enter a lock, and to leave it at once.
use crate::quiet::Quiet;
use crate::rounds::{lock_alone, lock_beside, mutex_alone, mutex_beside};
use bosh_lock::SiteLock;
use std::alloc::Global;
use std::rt::Clock;
use std::sync::{Mutex, Wait};
use std::thread::Threads;
use std::time::{Duration, Instant};

/// What is entered, and by how many threads.
#[derive(Clone, Copy)]
pub enum Work {
    LockAlone,
    LockBeside,
    /// A mutex of the standard library.
    MutexAlone,
    MutexBeside,
}

impl Work {
    /// The work of a word.
    pub fn of(word: &str) -> Option<Work> {
        match word {
            "lock.alone" => Some(Work::LockAlone),
            "lock.beside" => Some(Work::LockBeside),
            "mutex.alone" => Some(Work::MutexAlone),
            "mutex.beside" => Some(Work::MutexBeside),
            _ => None,
        }
    }
}

/// Enters a lock so often. False for want of memory.
fn enter_lock<R: Threads + Wait + Sync>(rt: &R, alloc: Global, beside: bool, times: u64) -> bool {
    match SiteLock::new(alloc, Quiet) {
        Ok((lock, pass)) => {
            let pass = match beside {
                false => lock_alone(rt, &lock, pass, times),
                true => lock_beside(rt, &lock, pass, times),
            };
            let Quiet = lock.close(pass);
            true
        }
        Err((Quiet, _)) => false,
    }
}

fn enter_mutex<R: Threads + Wait + Sync>(rt: &R, beside: bool, times: u64) -> bool {
    let mutex = Mutex::new(0);
    match beside {
        false => mutex_alone(rt, &mutex, times),
        true => mutex_beside(rt, &mutex, times),
    }
    true
}

/// How long a work takes that is done so often, where there is memory and a clock.
pub fn time_of<R: Threads + Wait + Sync + Clock>(
    rt: &R,
    alloc: Global,
    work: Work,
    times: u64,
) -> Option<Duration> {
    let start = Instant::now(rt).ok()?;
    let is_done = match work {
        Work::LockAlone => enter_lock(rt, alloc, false, times),
        Work::LockBeside => enter_lock(rt, alloc, true, times),
        Work::MutexAlone => enter_mutex(rt, false, times),
        Work::MutexBeside => enter_mutex(rt, true, times),
    };
    let took = start.elapsed(rt).ok()?;
    if is_done { Some(took) } else { None }
}
