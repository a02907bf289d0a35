//! The machine of a row, and its call in doubt, in words.
use crate::words::{Worded, number, number_after};
use bosh_base::{Call, Doubt, Vm};
use cases_given::CaseFault;
use std::alloc::Global;
use std::str::SplitWhitespace;

/// As `7 start 5`: the number of the call, and the call.
impl Worded for Doubt {
    fn of(alloc: Global, words: &mut SplitWhitespace<'_>) -> Result<Self, CaseFault> {
        let n = number(words)?;
        let call = Call::of(alloc, words)?;
        Ok(Doubt { n, call })
    }
}

/// As `5 of 3`: its number, and the call that made it.
impl Worded for Vm {
    fn of(_alloc: Global, words: &mut SplitWhitespace<'_>) -> Result<Self, CaseFault> {
        let vm = number(words)?;
        let agent = number_after(words, "of")?;
        Ok(Vm { vm, agent })
    }
}
