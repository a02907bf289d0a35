//! Threads that enter and leave at once.
ghost use Rattle.std.specs.Prelude.{◌≡◌, ◌≤◌, ◌^◌};

use crate::quiet::Quiet;
use bosh_lock::{Pass, SiteLock};
use std::sync::{Mutex, Wait};
use std::thread::{Threads, join};

pub fn lock_alone<R: Wait>(
    rt: &R,
    lock: &SiteLock<Quiet>,
    pass: Pass<Quiet>,
    times: u64,
) -> Pass<Quiet>
    requires { pass.lock ≡ lock.now }
    ensures { (result.lock ≡ lock.entry.now) × (result.share ≡ pass.share) }
{
    let mut pass = pass;
    for _ in 0..times {
        pass = lock.leave(lock.enter(rt, pass));
    }
    pass
}

pub fn lock_beside<R: Threads + Wait + Sync>(
    rt: &R,
    lock: &SiteLock<Quiet>,
    pass: Pass<Quiet>,
    times: u64,
) -> Pass<Quiet>
    requires lock { pass.lock ≡ lock.now }
    requires share { 2 ≤ pass.share }
    ensures { (result.lock ≡ lock.entry.now) × (result.share ≡ pass.share) }
{
    let (one, other) = lock.split(pass);
    let (one, other) = join(
        rt,
        move || -> Pass<Quiet>
            requires { one.lock ≡ lock.now }
            ensures { (result.lock ≡ lock.entry.now) × (result.share ≡ one.share) }
        { lock_alone(rt, lock, one, times) },
        move || -> Pass<Quiet>
            requires { other.lock ≡ lock.now }
            ensures { (result.lock ≡ lock.entry.now) × (result.share ≡ other.share) }
        { lock_alone(rt, lock, other, times) },
    );
    lock.join(one, other)
}

pub fn mutex_alone<R: Wait>(rt: &R, mutex: &Mutex<u64>, times: u64) {
    for _ in 0..times {
        drop(mutex.lock(rt));
    }
}

pub fn mutex_beside<R: Threads + Wait + Sync>(rt: &R, mutex: &Mutex<u64>, times: u64) {
    join(
        rt,
        || mutex_alone(rt, mutex, times),
        || mutex_alone(rt, mutex, times),
    );
}
