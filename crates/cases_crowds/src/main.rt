//! Crowds of 2, 4 and 8 threads enter one lock, each 10,000 times, and note their number and their count. Now and then
//! one waits until others have noted more. At the end the list has each thread's notes, each once and in its order. With
//! the words `bench WORK TIMES`, as `bench lock.alone 1000`, it prints how many microseconds it takes to enter a lock or a
//! mutex so often in one thread `alone`, or in each of two, `beside` one another.
#![tactic(auto)]

ghost use Rattle.std.specs.Prelude.{◌≡◌, ◌≤◌};

mod bench;
mod crowd;
mod marks;
mod order;
mod quiet;
mod rounds;

use crate::bench::{Work, time_of};
use crate::crowd::{Plan, eight, four, two};
use crate::marks::Marks;
use crate::order::is_in_order;
use bosh_lock::{Pass, SiteLock};
use std::alloc::Global;
use std::process::ExitCode;
use std::rt::Clock;
use std::sync::Wait;
use std::thread::Threads;
use std::{env, io};

/// How often each thread enters.
const TIMES: u64 = 10_000;

/// The crowd of so many threads.
fn crowd_of<R: Threads + Wait + Sync>(
    rt: &R,
    lock: &SiteLock<Marks>,
    pass: Pass<Marks>,
    plan: Plan,
) -> Pass<Marks>
    requires lock { pass.lock ≡ lock.now }
    requires share { 8 ≤ pass.share }
    ensures lock { result.lock ≡ lock.entry.now }
    ensures share { result.share ≡ pass.share }
{
    match plan.threads {
        2 => two(rt, lock, pass, 0, plan),
        4 => four(rt, lock, pass, 0, plan),
        _ => eight(rt, lock, pass, plan),
    }
}

/// What came of a crowd.
#[derive(Clone, Copy)]
struct Outcome {
    notes: usize,
    is_right: bool,
}

impl Outcome {
    fn told(self) -> &'static str {
        if self.is_right {
            "each once and in its order"
        } else {
            "not in order"
        }
    }
}

/// What a crowd leaves, or nothing for want of memory.
fn marks_of<R: Threads + Wait + Sync>(rt: &R, alloc: Global, plan: Plan) -> Option<Marks> {
    let marks = Marks::with_room(alloc, plan.all()).ok()?;
    match SiteLock::new(alloc, marks) {
        Ok((lock, pass)) => {
            let pass = crowd_of(rt, &lock, pass, plan);
            Some(lock.close(pass))
        }
        Err((marks, _)) => {
            drop(marks);
            None
        }
    }
}

fn outcome_of<R: Threads + Wait + Sync>(rt: &R, alloc: Global, plan: Plan) -> Option<Outcome> {
    let marks = marks_of(rt, alloc, plan)?;
    Some(Outcome {
        notes: marks.all().len(),
        is_right: is_in_order(marks.all(), plan),
    })
}

fn report<R: Threads + Wait + Sync + Print>(
    rt: &R,
    alloc: Global,
    threads: u64,
) -> io::Result<bool> {
    let plan = Plan {
        threads,
        times: TIMES,
    };
    let Some(outcome) = outcome_of(rt, alloc, plan) else {
        println!(rt; "{threads} threads: no memory")?;
        return Ok(false);
    };
    let Outcome { notes, is_right } = outcome;
    println!(rt; "{threads} threads: {notes} notes, {}", outcome.told())?;
    Ok(is_right)
}

fn report_all<R: Threads + Wait + Sync + Print>(rt: &R, alloc: Global) -> io::Result<bool> {
    let mut is_right = true;
    for threads in [2, 4, 8] {
        is_right &= report(rt, alloc, threads)?;
    }
    Ok(is_right)
}

/// Prints how long a work takes.
fn print_time<R: Threads + Wait + Sync + Clock + Print>(
    rt: &R,
    alloc: Global,
    work: &str,
    times: &str,
) -> io::Result<bool> {
    let (Some(work), Ok(times)) = (Work::of(work), times.parse::<u64>()) else {
        return Ok(false);
    };
    match time_of(rt, alloc, work, times) {
        Some(took) => {
            println!(rt; "{}", took.as_micros())?;
            Ok(true)
        }
        None => Ok(false),
    }
}

fn answer<R: Threads + Wait + Sync + Clock + Print>(
    rt: &R,
    alloc: Global,
    words: &[String],
) -> io::Result<bool> {
    match words {
        [word, work, times] if word.as_str() == "bench" => {
            print_time(rt, alloc, work.as_str(), times.as_str())
        }
        _ => report_all(rt, alloc),
    }
}

fn main(rt: HostRuntime) -> io::Result<ExitCode> {
    let words: Vec<String> = env::args(&rt)?.skip(1).collect(rt.alloc())?;
    Ok(if answer(&rt, rt.alloc(), words.as_slice())? {
        ExitCode::SUCCESS
    } else {
        ExitCode::FAILURE
    })
}
