//! The calls by their names.
use crate::stand::Stand;
use crate::steps::take_steps;
use crate::timed::{time_of_calls, time_of_load};
use bosh_yaml::Node;
use cases_given::{Calls, Case, CaseFault, Outcome};
use std::alloc::Global;
use std::rt::Clock;
use std::time::Duration;

/// The calls on clouds.
pub struct Clouds;

impl Calls for Clouds {
    fn answer(&self, case: &Case<'_>) -> Result<Outcome, CaseFault> {
        let Case { alloc, given, .. } = *case;
        match case.call {
            "cloud.run" => run(alloc, given),
            _ => Err(CaseFault::NoSuchCall),
        }
    }

    fn time(
        &self,
        clock: &impl Clock,
        case: &Case<'_>,
        rounds: u32,
    ) -> Result<Duration, CaseFault> {
        let Case { alloc, given, .. } = *case;
        match case.call {
            "cloud.calls" => time_of_calls(clock, alloc, given, rounds),
            "cloud.load" => time_of_load(clock, alloc, given, rounds),
            _ => Err(CaseFault::NoSuchCall),
        }
    }
}

// What a cloud answers to steps, and what is there after them.
fn run(alloc: Global, given: &Node) -> Result<Outcome, CaseFault> {
    let mut stand = Stand::new(alloc);
    take_steps(&mut stand, given)?;
    stand.into_outcome()
}
