//! Who answers which calls.
use cases_children::Children;
use cases_clouds::Clouds;
use cases_entries::Entries;
use cases_given::{Calls, Case, CaseFault, Outcome, cut};
use cases_lines::Lines;
use cases_replies::Replies;
use cases_rows::Rows;
use cases_rules::Rules;
use std::rt::Clock;
use std::time::Duration;

/// All calls of the program.
pub(crate) struct Texts;

impl Calls for Texts {
    fn answer(&self, case: &Case<'_>) -> Result<Outcome, CaseFault> {
        match cut(case.call, '.')?.0 {
            "cloud" => Clouds.answer(case),
            "entry" => Entries.answer(case),
            "line" => Lines.answer(case),
            "report" | "cck" => Replies.answer(case),
            "row" => Rows.answer(case),
            "wire" => Children.answer(case),
            _ => Rules.answer(case),
        }
    }

    fn time(
        &self,
        clock: &impl Clock,
        case: &Case<'_>,
        rounds: u32,
    ) -> Result<Duration, CaseFault> {
        match cut(case.call, '.')?.0 {
            "cloud" => Clouds.time(clock, case, rounds),
            "entry" => Entries.time(clock, case, rounds),
            _ => Rules.time(clock, case, rounds),
        }
    }
}
