//! The calls by their names.
use crate::stand::{Stand, on_stand};
use crate::stops::stops;
use bosh_book_words::take_steps;
use bosh_cases::{Calls, CaseFault, Outcome};
use bosh_yaml::Node;
use std::alloc::Global;

/// The calls on sites.
pub(crate) struct SiteCalls;

impl Calls for SiteCalls {
    fn answer(
        &self,
        alloc: Global,
        call: &str,
        setting: &Node,
        given: &Node,
    ) -> Result<Outcome, CaseFault> {
        match call {
            "site.run" => run(alloc, setting, given),
            "site.stops" => stops(alloc, setting, given),
            _ => Err(CaseFault::NoSuchCall),
        }
    }
}

// What a site answers to steps, each with the moves that it made.
fn run(alloc: Global, setting: &Node, given: &Node) -> Result<Outcome, CaseFault> {
    let told = on_stand(alloc, |stand: &mut Stand| told(stand, setting, given))?;
    Ok(Outcome::bytes(told))
}

fn told(stand: &mut Stand, setting: &Node, given: &Node) -> Result<Vec<u8>, CaseFault> {
    take_steps(stand, setting, given)?;
    stand.told()
}
