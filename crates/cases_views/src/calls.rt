//! The calls by their names.
use crate::goals;
use cases_given::{Calls, Case, CaseFault, Outcome};
use std::rt::Clock;
use std::time::Duration;

/// The calls on goals.
pub struct Views;

impl Calls for Views {
    fn answer(&self, case: &Case<'_>) -> Result<Outcome, CaseFault> {
        let Case {
            alloc,
            setting,
            given,
            ..
        } = *case;
        match case.call {
            "goal.of" => goals::of_manifest(alloc, setting, given),
            "goal.anew" => goals::of_current(alloc, setting, given),
            _ => Err(CaseFault::NoSuchCall),
        }
    }

    fn time(
        &self,
        clock: &impl Clock,
        case: &Case<'_>,
        rounds: u32,
    ) -> Result<Duration, CaseFault> {
        let Case {
            alloc,
            setting,
            given,
            ..
        } = *case;
        match case.call {
            "goal.of" => goals::time_of_goal(clock, alloc, setting, given, rounds),
            _ => Err(CaseFault::NoSuchCall),
        }
    }
}
