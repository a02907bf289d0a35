//! Threads that enter one lock.
ghost use Rattle.std.specs.Prelude.{◌≡◌, ◌≤◌};

use crate::marks::{Mark, Marks};
use bosh_lock::{Chronicle, Pass, SiteLock};
use std::sync::Wait;
use std::thread::{Threads, join};

/// How often a thread enters before it waits for others again.
const STRETCH: u64 = 500;

/// How many threads there are, and how often each enters.
#[derive(Clone, Copy)]
pub struct Plan {
    pub threads: u64,
    pub times: u64,
}

impl Plan {
    /// How many notes there are in the end.
    pub fn all(self) -> u64 {
        self.threads.saturating_mul(self.times)
    }

    /// Whether others still have to note something, where a thread has noted so many, and there were so many notes of
    /// all when it noted its last. Whoever noted the last of all alone finds no more, so one at a time waits long.
    fn awaits_others(self, noted: u64, length: u64) -> bool {
        let own = self.times.saturating_sub(noted);
        noted % STRETCH == 0 && length < self.all().saturating_sub(own)
    }
}

/// Enters once, and notes a mark. Answers how many notes there are then.
fn note<R: Wait>(
    rt: &R,
    lock: &SiteLock<Marks>,
    pass: Pass<Marks>,
    mark: Mark,
) -> (Pass<Marks>, u64)
    requires { pass.lock ≡ lock.now }
    ensures lock { result.0.lock ≡ lock.entry.now }
    ensures share { result.0.share ≡ pass.share }
{
    let mut turn = lock.enter(rt, pass);
    let marks = turn.value();
    let _ = marks.note(mark);
    let length = marks.length();
    (lock.leave(turn), length)
}

/// What one thread does.
fn note_all<R: Wait>(
    rt: &R,
    lock: &SiteLock<Marks>,
    pass: Pass<Marks>,
    thread: u64,
    plan: Plan,
) -> Pass<Marks>
    requires { pass.lock ≡ lock.now }
    ensures lock { result.lock ≡ lock.entry.now }
    ensures share { result.share ≡ pass.share }
{
    let mut pass = pass;
    for count in 0..plan.times {
        let (noted, length) = note(rt, lock, pass, Mark { thread, count });
        pass = noted;
        if plan.awaits_others(count.saturating_add(1), length) {
            pass = lock.await_change(rt, pass);
        }
    }
    pass
}

/// Two threads, of which the first has that number.
pub fn two<R: Threads + Wait + Sync>(
    rt: &R,
    lock: &SiteLock<Marks>,
    pass: Pass<Marks>,
    first: u64,
    plan: Plan,
) -> Pass<Marks>
    requires lock { pass.lock ≡ lock.now }
    requires share { 2 ≤ pass.share }
    ensures lock { result.lock ≡ lock.entry.now }
    ensures share { result.share ≡ pass.share }
{
    let (one, other) = lock.split(pass);
    let second = first.wrapping_add(1);
    let (one, other) = join(
        rt,
        move || -> Pass<Marks>
            requires { one.lock ≡ lock.now }
            ensures { (result.lock ≡ lock.entry.now) × (result.share ≡ one.share) }
        { note_all(rt, lock, one, first, plan) },
        move || -> Pass<Marks>
            requires { other.lock ≡ lock.now }
            ensures { (result.lock ≡ lock.entry.now) × (result.share ≡ other.share) }
        { note_all(rt, lock, other, second, plan) },
    );
    lock.join(one, other)
}

/// Four threads, of which the first has that number.
pub fn four<R: Threads + Wait + Sync>(
    rt: &R,
    lock: &SiteLock<Marks>,
    pass: Pass<Marks>,
    first: u64,
    plan: Plan,
) -> Pass<Marks>
    requires lock { pass.lock ≡ lock.now }
    requires share { 4 ≤ pass.share }
    ensures lock { result.lock ≡ lock.entry.now }
    ensures share { result.share ≡ pass.share }
{
    let (one, other) = lock.split(pass);
    let third = first.wrapping_add(2);
    let (one, other) = join(
        rt,
        move || -> Pass<Marks>
            requires { (one.lock ≡ lock.now) × (2 ≤ one.share) }
            ensures { (result.lock ≡ lock.entry.now) × (result.share ≡ one.share) }
        { two(rt, lock, one, first, plan) },
        move || -> Pass<Marks>
            requires { (other.lock ≡ lock.now) × (2 ≤ other.share) }
            ensures { (result.lock ≡ lock.entry.now) × (result.share ≡ other.share) }
        { two(rt, lock, other, third, plan) },
    );
    lock.join(one, other)
}

/// Eight threads.
pub fn eight<R: Threads + Wait + Sync>(
    rt: &R,
    lock: &SiteLock<Marks>,
    pass: Pass<Marks>,
    plan: Plan,
) -> Pass<Marks>
    requires lock { pass.lock ≡ lock.now }
    requires share { 8 ≤ pass.share }
    ensures lock { result.lock ≡ lock.entry.now }
    ensures share { result.share ≡ pass.share }
{
    let (one, other) = lock.split(pass);
    let (one, other) = join(
        rt,
        move || -> Pass<Marks>
            requires { (one.lock ≡ lock.now) × (4 ≤ one.share) }
            ensures { (result.lock ≡ lock.entry.now) × (result.share ≡ one.share) }
        { four(rt, lock, one, 0, plan) },
        move || -> Pass<Marks>
            requires { (other.lock ≡ lock.now) × (4 ≤ other.share) }
            ensures { (result.lock ≡ lock.entry.now) × (result.share ≡ other.share) }
        { four(rt, lock, other, 4, plan) },
    );
    lock.join(one, other)
}
