//! Who answers which calls.
use cases_given::{Calls, Case, CaseFault, Outcome, cut};
use cases_inputs::Inputs;
use cases_views::Views;
use std::rt::Clock;
use std::time::Duration;

/// All calls of the program.
pub(crate) struct Goals;

impl Calls for Goals {
    fn answer(&self, case: &Case<'_>) -> Result<Outcome, CaseFault> {
        match cut(case.call, '.')?.0 {
            "goal" => Views.answer(case),
            _ => Inputs.answer(case),
        }
    }

    fn time(
        &self,
        clock: &impl Clock,
        case: &Case<'_>,
        rounds: u32,
    ) -> Result<Duration, CaseFault> {
        match cut(case.call, '.')?.0 {
            "goal" => Views.time(clock, case, rounds),
            _ => Inputs.time(clock, case, rounds),
        }
    }
}
