//! Tasks that are carried to their ends by workers that take turns.
use crate::running::{Claimed, Running};
use bosh_cases::CaseFault;
use bosh_records::Records;
use bosh_world::SiteFault;
use std::alloc::Global;

/// How many rounds the workers may go.
const MOST_ROUNDS: usize = 10_000;

/// What a worker has at hand.
#[derive(Clone, Copy, Debug, PartialEq, Eq)]
enum Hand {
    Nothing,
    /// A call that is to be performed.
    Begun(u64),
    /// A call that is to be ended.
    Performed(u64),
}

fn has_ended(records: &Records, task: u64) -> bool {
    match records.task(task) {
        Some(row) => row.end.is_some(),
        None => true,
    }
}

fn have_ended(records: &Records, tasks: &[u64]) -> bool {
    tasks.iter().all(|task| has_ended(records, *task))
}

// Workers with nothing at hand.
fn hands_of(alloc: Global, workers: u8) -> Result<Vec<Hand>, SiteFault> {
    let mut hands = Vec::new(alloc);
    for _ in 0..workers {
        hands.push(Hand::Nothing)?;
    }
    Ok(hands)
}

// A call that is at hand is there.
fn plain(done: Result<Result<(), SiteFault>, CaseFault>) -> Result<(), SiteFault> {
    match done {
        Ok(done) => done,
        Err(_) => Err(SiteFault::Memory),
    }
}

// What a worker has at hand where something was done.
fn then(done: Result<(), SiteFault>, hand: Hand) -> Result<Hand, SiteFault> {
    match done {
        Ok(()) => Ok(hand),
        Err(fault) => Err(fault),
    }
}

fn end(running: &mut Running, task: u64) -> Result<Hand, SiteFault> {
    match running.site.end_task(task) {
        Ok(_) => Ok(Hand::Nothing),
        Err(fault) => Err(fault),
    }
}

// Claims work of a task, or ends it.
fn claim(running: &mut Running, task: u64, worker: u8) -> Result<Hand, SiteFault> {
    if has_ended(running.site.book().records(), task) {
        return Ok(Hand::Nothing);
    }
    match running.claim(task, worker)? {
        Claimed::Work(n) => Ok(Hand::Begun(n)),
        Claimed::Wait => Ok(Hand::Nothing),
        Claimed::Over => end(running, task),
    }
}

// Claims work of the first task that has some.
fn claim_first(running: &mut Running, tasks: &[u64], worker: u8) -> Result<Hand, SiteFault> {
    for task in tasks {
        let hand = claim(running, *task, worker)?;
        if hand != Hand::Nothing {
            return Ok(hand);
        }
    }
    Ok(Hand::Nothing)
}

fn take_turn(
    running: &mut Running,
    tasks: &[u64],
    worker: u8,
    hand: Hand,
) -> Result<Hand, SiteFault> {
    match hand {
        Hand::Nothing => claim_first(running, tasks, worker),
        Hand::Begun(n) => then(plain(running.perform(n)), Hand::Performed(n)),
        Hand::Performed(n) => then(plain(running.settle(n)), Hand::Nothing),
    }
}

fn go_round(running: &mut Running, tasks: &[u64], hands: &mut [Hand]) -> Result<(), SiteFault> {
    let mut worker = 0u8;
    for hand in hands {
        *hand = take_turn(running, tasks, worker, *hand)?;
        worker = worker.saturating_add(1);
    }
    Ok(())
}

/// Carries tasks to their ends by workers that take turns: each claims work, performs it, and ends its call.
pub fn work(
    alloc: Global,
    running: &mut Running,
    tasks: &[u64],
    workers: u8,
) -> Result<(), SiteFault> {
    let mut hands = hands_of(alloc, workers)?;
    for _ in 0..MOST_ROUNDS {
        if have_ended(running.site.book().records(), tasks) {
            return Ok(());
        }
        go_round(running, tasks, hands.as_mut_slice())?;
    }
    Err(SiteFault::Memory)
}
