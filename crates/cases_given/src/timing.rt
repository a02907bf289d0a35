//! How long works take.
use crate::CaseFault;
use std::rt::Clock;
use std::time::{Duration, Instant};

fn now(clock: &impl Clock) -> Result<Instant, CaseFault> {
    Instant::now(clock).map_err(|_| CaseFault::Clock)
}

/// How long it takes to do something so many times, where it succeeds each time.
pub fn timed<F: FnMut() -> bool + Drop>(
    clock: &impl Clock,
    rounds: u32,
    mut work: F,
) -> Result<Duration, CaseFault>
    requires { F.IsAlwaysCallable work }
{
    let start = now(clock)?;
    for _ in 0..rounds {
        if !work() {
            return Err(CaseFault::Form);
        }
    }
    start.elapsed(clock).map_err(|_| CaseFault::Clock)
}
