//! How an instance is to stand.
use crate::parts::{Parts, with_parts};
use crate::rows::instance;
use bosh_base::{GoalRow, State};
use cases_given::{CaseFault, both};
use cases_words::{number, take, take_some, whole, word};
use std::alloc::Global;
use std::str::SplitWhitespace;

/// `running`, `stopped` or `detached`; and `made a`, `spec s`, `disk 10`, and `after 6`, for a machine of a call after
/// that one. Without these it is made `a`, with the spec `s`, no disk, and a machine of any call.
impl Parts for GoalRow {
    fn set(&mut self, alloc: Global, words: &mut SplitWhitespace<'_>) -> Result<(), CaseFault> {
        match word(words)? {
            "made" => take(alloc, &mut self.make, words),
            "spec" => take(alloc, &mut self.spec, words),
            "disk" => take_some(alloc, &mut self.disk, words),
            "after" => set_fresh_after(self, words),
            word => set_state(self, word),
        }
    }
}

fn set_fresh_after(want: &mut GoalRow, words: &mut SplitWhitespace<'_>) -> Result<(), CaseFault> {
    want.fresh_after = number(words)?;
    Ok(())
}

fn set_state(want: &mut GoalRow, word: &str) -> Result<(), CaseFault> {
    want.state = match word {
        "running" => State::Running,
        "stopped" => State::Stopped,
        "detached" => State::Detached,
        _ => return Err(CaseFault::Form),
    };
    Ok(())
}

fn plain(alloc: Global) -> Result<GoalRow, CaseFault> {
    let parts = both(whole(alloc, "a"), whole(alloc, "s"));
    let (inst, (make, spec)) = both(instance(alloc), parts)?;
    Ok(GoalRow {
        inst,
        make,
        spec,
        disk: None,
        state: State::Running,
        fresh_after: 0,
    })
}

/// The want that a text writes: `none` is that there is none.
pub(crate) fn want_of(alloc: Global, text: &str) -> Result<Option<GoalRow>, CaseFault> {
    if text == "none" {
        return Ok(None);
    }
    let want = plain(alloc)?;
    Ok(Some(with_parts(alloc, want, text)?))
}
