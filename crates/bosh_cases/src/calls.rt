//! The calls that a table asks.
use crate::{CaseFault, Outcome};
use bosh_yaml::Node;
use std::alloc::Global;

/// Calls with their names.
pub trait Calls {
    /// What the call of this name comes to for what a case gives, under the setting of the cases around it.
    fn answer(
        &self,
        alloc: Global,
        call: &str,
        setting: &Node,
        given: &Node,
    ) -> Result<Outcome, CaseFault>;
}
