//! The calls by their names.
use crate::entries::{older, present, time_of_copy, time_of_read, time_of_write};
use cases_given::{Calls, Case, CaseFault, Outcome};
use std::rt::Clock;
use std::time::Duration;

/// The calls on entries.
pub struct Entries;

impl Calls for Entries {
    fn answer(&self, case: &Case<'_>) -> Result<Outcome, CaseFault> {
        let Case {
            alloc,
            setting,
            given,
            ..
        } = *case;
        match case.call {
            "entry.read" => present(alloc, setting, given),
            "entry.read_old" => older(alloc, setting, given),
            _ => Err(CaseFault::NoSuchCall),
        }
    }

    fn time(
        &self,
        clock: &impl Clock,
        case: &Case<'_>,
        rounds: u32,
    ) -> Result<Duration, CaseFault> {
        let Case {
            alloc,
            setting,
            given,
            ..
        } = *case;
        match case.call {
            "entry.read" => time_of_read(clock, alloc, setting, given, rounds),
            "entry.write" => time_of_write(clock, alloc, setting, given, rounds),
            "entry.copy" => time_of_copy(clock, alloc, setting, given, rounds),
            _ => Err(CaseFault::NoSuchCall),
        }
    }
}
