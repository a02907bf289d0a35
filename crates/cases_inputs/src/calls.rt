//! The calls by their names.
use crate::{configs, manifests, networks, pools, releases, templates, ties, vars};
use cases_given::{Calls, Case, CaseFault, Outcome};
use std::rt::Clock;
use std::time::Duration;

/// The calls on what a director is given.
pub struct Inputs;

impl Calls for Inputs {
    fn answer(&self, case: &Case<'_>) -> Result<Outcome, CaseFault> {
        let Case {
            alloc,
            setting,
            given,
            ..
        } = *case;
        match case.call {
            "config.address" => configs::address(alloc, setting, given),
            "config.check" => configs::checked(alloc, given),
            "links.resolve" => ties::resolved(alloc, given),
            "manifest.check" => manifests::checked(alloc, given),
            "plan.address" => networks::address(alloc, setting, given),
            "pool.assign" => pools::assigned(alloc, setting, given),
            "release.collect" => releases::collected(alloc, setting, given),
            "template.render" => templates::text(alloc, setting, given),
            "vars.fill" => vars::filled(alloc, setting, given),
            _ => Err(CaseFault::NoSuchCall),
        }
    }

    fn time(
        &self,
        clock: &impl Clock,
        case: &Case<'_>,
        rounds: u32,
    ) -> Result<Duration, CaseFault> {
        let Case {
            alloc,
            setting,
            given,
            ..
        } = *case;
        match case.call {
            "config.check" => configs::time_of_check(clock, alloc, given, rounds),
            "pool.assign" => pools::time_of_assign(clock, alloc, setting, given, rounds),
            "release.collect" => releases::time_of_collect(clock, alloc, setting, given, rounds),
            _ => Err(CaseFault::NoSuchCall),
        }
    }
}
