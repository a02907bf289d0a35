//! The calls by their names.
use crate::changes::{answered, begun, gone, updated};
use crate::questions::{call_of_next, is_machine_there, next_of, stands_of};
use crate::walks::walked;
use cases_given::{Calls, Case, CaseFault, Outcome};
use std::rt::Clock;
use std::time::Duration;

/// The calls on rows.
pub struct Rows;

impl Calls for Rows {
    fn answer(&self, case: &Case<'_>) -> Result<Outcome, CaseFault> {
        let Case { alloc, given, .. } = *case;
        match case.call {
            "row.next" => next_of(alloc, given),
            "row.call" => call_of_next(alloc, given),
            "row.stands" => stands_of(alloc, given),
            "row.has_its_machine" => is_machine_there(alloc, given),
            "row.begin" => begun(alloc, given),
            "row.after" => answered(alloc, given),
            "row.update_done" => updated(alloc, given),
            "row.gone" => gone(alloc, given),
            "row.walk" => walked(alloc, given),
            _ => Err(CaseFault::NoSuchCall),
        }
    }

    fn time(
        &self,
        _clock: &impl Clock,
        _case: &Case<'_>,
        _rounds: u32,
    ) -> Result<Duration, CaseFault> {
        Err(CaseFault::NoSuchCall)
    }
}
