//! The order of compilation, and what is compiled.
ghost use Rattle.std.specs.Prelude.{◌≡◌, ◌↔◌, ◌<◌, All, IsTrue};
ghost use Rattle.cases_rules.specs.Works.{rank_of, NeedsLower};

use bosh_base::{Digest, Key, KeyWork, Seq};
use bosh_compile::{KeySet, built, levels, ready};
use bosh_yaml::Node;
use cases_given::{CaseFault, Given, Outcome, named, timed, told, two};
use std::alloc::Global;
use std::rt::Clock;
use std::time::Duration;

fn rank(key: &Key) -> u8
    ensures { result ≡ rank_of key.now }
{
    key.fingerprint.0[0]
}

fn is_below(key: &Key, limit: u8) -> bool
    ensures { IsTrue result ↔ (rank_of key.now < limit) }
{
    rank(key) < limit
}

fn are_below(keys: &[Key], limit: u8) -> bool
    ensures { IsTrue result ↔ All (λ key. rank_of key < limit) keys.now }
{
    keys.iter().all(|key| is_below(key, limit))
}

// Whether each need of a work has a lower rank.
fn needs_lower(work: &KeyWork) -> bool
    ensures { IsTrue result ↔ NeedsLower work.now }
{
    are_below(work.deps.as_slice(), rank(&work.key))
}

fn need_lower(works: &[KeyWork]) -> bool
    ensures { IsTrue result ↔ All NeedsLower works.now }
{
    works.iter().all(|work| needs_lower(work))
}

fn names(alloc: Global, works: &Seq<KeyWork>) -> Result<Vec<u8>, CaseFault> {
    let mut text = Vec::new(alloc);
    for work in works {
        text.extend_from_slice(work.name.as_bytes())?;
        text.push(b' ')?;
    }
    Ok(text)
}

/// The names of works in the order of compilation. Each work has a fingerprint above those of its needs.
#[tactic(auto, using(crate::proofs::WorkLemmas::acyclic))]
pub(crate) fn ordered(alloc: Global, given: &Node) -> Result<Outcome, CaseFault> {
    let works: Seq<KeyWork> = Given::of(alloc, given)?;
    if !need_lower(works.as_slice()) {
        return Err(CaseFault::Form);
    }
    told(alloc, levels(alloc, works.as_slice()), names)
}

/// The time to put works in the order of compilation.
pub(crate) fn time_of_levels(
    clock: &impl Clock,
    alloc: Global,
    given: &Node,
    rounds: u32,
) -> Result<Duration, CaseFault> {
    let works: Seq<KeyWork> = Given::of(alloc, given)?;
    timed(clock, rounds, || is_ordered(alloc, works.as_slice()))
}

#[tactic(auto, using(crate::proofs::WorkLemmas::acyclic))]
fn is_ordered(alloc: Global, works: &[KeyWork]) -> bool {
    need_lower(works) && levels(alloc, works).is_ok()
}

/// Whether all that a work needs is compiled.
pub(crate) fn is_ready(alloc: Global, given: &Node) -> Result<Outcome, CaseFault> {
    let (work, compiled): (KeyWork, Seq<Key>) = two(alloc, given, ["work", "compiled"])?;
    let compiled = KeySet::of(alloc, compiled.as_slice())?;
    named(alloc, &ready(&work, &compiled))
}

/// The digest of what compiling a work gives, in hex.
pub(crate) fn digest(alloc: Global, given: &Node) -> Result<Outcome, CaseFault> {
    let (work, deps): (KeyWork, Seq<Digest>) = two(alloc, given, ["work", "deps"])?;
    let digest = built(&work, deps.as_slice());
    let digits = hex::encode(alloc, digest.0.as_slice())?;
    Ok(Outcome::gives(digits.into_bytes()))
}
