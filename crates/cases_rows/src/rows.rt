//! What is recorded of an instance.
use crate::parts::{Parts, with_parts};
use bosh_base::{Inst, Name, Row};
use bosh_rows::bare;
use cases_given::{CaseFault, both};
use cases_words::{add, take_some, word};
use std::alloc::Global;
use std::str::SplitWhitespace;

fn name(alloc: Global, bytes: &[u8]) -> Result<Name, CaseFault> {
    Ok(Name::of(alloc, bytes)?)
}

/// The instance of all rows and wants.
pub(crate) fn instance(alloc: Global) -> Result<Inst, CaseFault> {
    let (dep, group) = both(name(alloc, b"dep"), name(alloc, b"web"))?;
    Ok(Inst {
        dep,
        group,
        index: 0,
    })
}

// A part that is one word.
fn set_flag(row: &mut Row, word: &str) -> Result<(), CaseFault> {
    match word {
        "nothing" => {}
        "running" => row.running = true,
        "drained" => row.drained = true,
        "lost" => row.lost = true,
        _ => return Err(CaseFault::Form),
    }
    Ok(())
}

/// `nothing`; or any of `made a`, `vm 5 of 3` (its number, and the call that made it), `spec s`, `running`, `drained`,
/// `lost`, `disk 2 of 5 10 active mounted`, and `doubt 7 start 5`.
impl Parts for Row {
    fn set(&mut self, alloc: Global, words: &mut SplitWhitespace<'_>) -> Result<(), CaseFault> {
        match word(words)? {
            "vm" => take_some(alloc, &mut self.vm, words),
            "made" => take_some(alloc, &mut self.make, words),
            "spec" => take_some(alloc, &mut self.spec, words),
            "doubt" => take_some(alloc, &mut self.doubt, words),
            "disk" => add(alloc, &mut self.disks, words),
            word => set_flag(self, word),
        }
    }
}

/// The row that a text writes.
pub(crate) fn row_of(alloc: Global, text: &str) -> Result<Row, CaseFault> {
    let inst = instance(alloc)?;
    with_parts(alloc, bare(alloc, inst), text)
}
