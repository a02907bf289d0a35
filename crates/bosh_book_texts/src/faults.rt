//! Refusals in words.
use crate::told::Told;
use bosh_book::BookFault;
use bosh_case_texts::{push_count, push_inst, push_joint};
use bosh_cases::{CaseFault, push_parts};
use bosh_manifest_names::GoalFault;
use std::alloc::AllocError;

fn goal_word(fault: &GoalFault) -> &'static [u8] {
    match fault {
        GoalFault::NoConfig => b"Goal NoConfig",
        GoalFault::Unknown { .. } => b"Goal Unknown",
        GoalFault::Link(_) => b"Goal Link",
        GoalFault::Share(_) => b"Goal Share",
        GoalFault::Pool(_) => b"Goal Pool",
        GoalFault::DiskInAz { .. } => b"Goal DiskInAz",
        GoalFault::Template(_) => b"Goal Template",
        GoalFault::Limit => b"Goal Limit",
        GoalFault::Memory => b"Goal Memory",
    }
}

fn word(fault: &BookFault) -> &'static [u8] {
    match fault {
        BookFault::Stopped => b"Stopped",
        BookFault::StoreFault => b"StoreFault",
        BookFault::Limit => b"Limit",
        BookFault::Full => b"Full",
        _ => b"Memory",
    }
}

impl Told for BookFault {
    fn push_to(&self, text: &mut Vec<u8>) -> Result<(), CaseFault> {
        match self {
            BookFault::Memory => Err(CaseFault::Memory),
            fault => Ok(push_fault(text, fault)?),
        }
    }
}

// Adds a refusal, with what it names.
fn push_fault(text: &mut Vec<u8>, fault: &BookFault) -> Result<(), AllocError> {
    match fault {
        BookFault::Damaged { position } => push_count(text, b"Damaged ", *position),
        BookFault::Locked { task } => push_count(text, b"Locked ", *task),
        BookFault::NoDisk { disk } => push_count(text, b"NoDisk ", *disk),
        BookFault::NotOrphaned { disk } => push_count(text, b"NotOrphaned ", *disk),
        BookFault::Differs { name } => push_parts(text, &[b"Differs ", name.as_slice()]),
        BookFault::NoDeployment { name } => push_parts(text, &[b"NoDeployment ", name.as_bytes()]),
        BookFault::NoInstance { inst } => push_inst(text, b"NoInstance ", inst),
        BookFault::Consumed { by } => push_joint(text, b"Consumed ", by),
        BookFault::Goal(fault) => push_parts(text, &[goal_word(fault)]),
        fault => push_parts(text, &[word(fault)]),
    }
}
