//! How long something takes.
use std::rt::Clock;
use std::time::{Duration, Instant};

/// How long it takes to do something with a value, where that succeeds.
pub fn timed<T, F: FnOnce(&T) -> bool + Drop>(
    clock: &impl Clock,
    value: &T,
    run: F,
) -> Option<Duration>
    requires { F.IsAlwaysCallable run }
{
    let start = Instant::now(clock).ok()?;
    let is_done = run(value);
    let took = start.elapsed(clock).ok()?;
    if is_done { Some(took) } else { None }
}
