//! Refusals in words.
use bosh_book_texts::Told;
use bosh_case_texts::{push_count, push_inst};
use bosh_cases::{CaseFault, push_parts};
use bosh_world::SiteFault;

/// A refusal of a site.
#[derive(Drop)]
pub struct Refused(pub SiteFault);

impl Told for Refused {
    fn push_to(&self, text: &mut Vec<u8>) -> Result<(), CaseFault> {
        match &self.0 {
            SiteFault::Book(fault) => fault.push_to(text),
            SiteFault::Memory => Err(CaseFault::Memory),
            fault => push_fault(text, fault),
        }
    }
}

// Adds a refusal that is none of the book's.
fn push_fault(text: &mut Vec<u8>, fault: &SiteFault) -> Result<(), CaseFault> {
    let done = match fault {
        SiteFault::CloudDamaged { position } => push_count(text, b"CloudDamaged ", *position),
        SiteFault::NotRunning { inst } => push_inst(text, b"NotRunning ", inst),
        SiteFault::NoMachine { inst } => push_inst(text, b"NoMachine ", inst),
        _ => push_parts(text, &[b"CloudStore"]),
    };
    Ok(done?)
}
