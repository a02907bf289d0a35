//! The calls that a table asks.
use crate::{CaseFault, Outcome};
use bosh_yaml::Node;
use std::alloc::Global;
use std::rt::Clock;
use std::time::Duration;

/// What a case asks.
#[derive(Clone, Copy)]
pub struct Case<'a> {
    pub alloc: Global,
    /// The name of the call, or of the work that is timed.
    pub call: &'a str,
    /// What the cases around it are answered under.
    pub setting: &'a Node,
    pub given: &'a Node,
}

/// Calls with their names.
pub trait Calls {
    /// What the call of a case comes to.
    fn answer(&self, case: &Case<'_>) -> Result<Outcome, CaseFault>;

    /// How long a work takes that is done in so many rounds with what a case gives.
    fn time(&self, clock: &impl Clock, case: &Case<'_>, rounds: u32) -> Result<Duration, CaseFault>;
}
