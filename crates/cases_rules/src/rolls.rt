//! Rolling updates.
ghost use Rattle.std.specs.Prelude.{IsTrue};
ghost use Rattle.bosh_roll.specs.Limit.{IsShare};

use bosh_base::{Count, Seq, Text};
use bosh_roll::{GroupRoll, Upd, limit_of, may_begin};
use bosh_yaml::Node;
use cases_given::{CaseFault, Outcome, field, named, two};
use std::alloc::Global;

// A percentage, or a number.
fn count(alloc: Global, given: &Node) -> Result<Count, CaseFault> {
    match two(alloc, given, ["percent", "whole"])? {
        (Some(share), None) => Ok(Count::Percent(share)),
        (None, Some(number)) => Ok(Count::Whole(number)),
        _ => Err(CaseFault::Form),
    }
}

fn is_share(count: Count) -> bool
    ensures { IsTrue result → IsShare count }
{
    match count {
        Count::Percent(share) => share <= 100,
        Count::Whole(_) => true,
    }
}

/// How many of a group's instances a count stands for.
pub(crate) fn limit(alloc: Global, given: &Node) -> Result<Outcome, CaseFault> {
    let count = count(alloc, given)?;
    let (size, least): (u32, u32) = two(alloc, given, ["size", "least"])?;
    if size > 256 || !is_share(count) {
        return Err(CaseFault::Form);
    }
    named(alloc, &limit_of(count, size, least))
}

// The state of a letter.
fn state(letter: u8) -> Result<Upd, CaseFault> {
    match letter {
        b't' => Ok(Upd::Todo),
        b'b' => Ok(Upd::Busy),
        b'd' => Ok(Upd::Finished),
        b'f' => Ok(Upd::Failed),
        _ => Err(CaseFault::Form),
    }
}

fn states(alloc: Global, given: &Node) -> Result<Seq<Upd>, CaseFault> {
    let letters: Text = field(alloc, given, "states")?;
    let mut states = Vec::new(alloc);
    for letter in &letters {
        states.push(state(*letter)?)?;
    }
    Ok(Seq::from(states))
}

/// Whether the update of the instance at a place may begin.
pub(crate) fn begins(alloc: Global, given: &Node) -> Result<Outcome, CaseFault> {
    let (canaries, limit): (u32, u32) = two(alloc, given, ["canaries", "limit"])?;
    let place: u32 = field(alloc, given, "place")?;
    let states = states(alloc, given)?;
    if place as usize >= states.len() {
        return Err(CaseFault::Form);
    }
    let roll = GroupRoll {
        canaries,
        limit,
        states,
    };
    named(alloc, &may_begin(&roll, place as usize))
}
