//! Links that other deployments use.
ghost use Rattle.std.specs.Prelude.{◌≡◌, ◌⊎◌, ◌&&◌, IfErr, None, OnOk, Some, find, not};
ghost use Rattle.std.specs.Option.{option_copied};
ghost use Rattle.std.specs.Str.{bytes_eq};
ghost use Rattle.bosh_asks.specs.Recorded.{first_consumer, withdrawn};
ghost use Rattle.bosh_asks.specs.declared.fault.BookFault.TheVariants.{Consumed, Memory};
ghost use Rattle.bosh_base.specs.declared.link.Joint.{Joint};
ghost use Rattle.bosh_history.specs.Held.{is_offered, same_bytes_joint};
ghost use Rattle.bosh_history.specs.Openings.{is_offered_still};

use crate::BookFault;
use bosh_base::{Copyable, DepRow, Goal, Joint, Offer, Tie};
use bosh_records::Since;
use std::alloc::Global;
use std::collections::btree_map::Iter;

fn same_joint(one: &Joint, other: &Joint) -> bool
    ensures { result ≡ same_bytes_joint one.now other.now }
{
    one.dep == other.dep
        && one.group == other.group
        && one.job == other.job
        && one.link == other.link
}

fn is_of(offer: &Offer, tie: &Tie) -> bool
    ensures { result ≡ (same_bytes_joint offer.now.joint tie.now.provider && bytes_eq offer.now.kind tie.now.kind) }
{
    same_joint(&offer.joint, &tie.provider) && offer.kind == tie.kind
}

fn is_offered(offers: &[Offer], tie: &Tie) -> bool
    ensures { result ≡ is_offered tie.now.provider tie.now.kind offers.now }
{
    offers.iter().any(|offer| is_of(offer, tie))
}

// The link of the tie is another deployment's, or the goal offers it still.
fn is_kept(goal: &Goal, tie: &Tie) -> bool
    ensures { result ≡ is_offered_still goal.now tie.now }
{
    tie.provider.dep != goal.dep || is_offered(goal.offers.as_slice(), tie)
}

fn first_withdrawn<'a>(ties: &'a [Tie], goal: &Goal) -> Option<&'a Tie>
    ensures { option_copied result ≡ find (λ tie. not (is_offered_still goal.now tie)) ties.now }
{
    ties.iter().find(|tie| !is_kept(goal, *tie))
}

// The first tie of another deployment whose link the goal withdraws.
fn withdrawn<'a>(row: Option<&'a DepRow>, goal: &Goal) -> Option<&'a Tie>
    ensures { option_copied result ≡ withdrawn goal.now (option_copied row.entry) }
{
    match row {
        Some(row) if row.dep != goal.dep => first_withdrawn(row.goal.ties.as_slice(), goal),
        _ => None,
    }
}

fn first_consumer<'a>(rows: Iter<'a, Since, Option<DepRow>>, goal: &Goal) -> Option<&'a Joint>
    ensures { option_copied result ≡ first_consumer goal.now rows.entry }
{
    for (_, row) in rows {
        if let Some(tie) = withdrawn(row.as_ref(), goal) {
            return Some(&tie.consumer);
        }
    }
    None
}

fn consumed(alloc: Global, by: &Joint) -> BookFault
    ensures { (result ≡ Consumed by.now) ⊎ (result ≡ Memory) }
{
    match by.copy(alloc) {
        Ok(by) => BookFault::Consumed { by },
        Err(_) => BookFault::Memory,
    }
}

/// That no other deployment of these uses a link that a goal withdraws. The first such consumer is named, by the order
/// of the deployments and of their ties.
pub(crate) fn check_consumers(
    alloc: Global,
    rows: Iter<'_, Since, Option<DepRow>>,
    goal: &Goal,
) -> Result<(), BookFault>
    ensures kept { OnOk result (first_consumer goal.now rows.entry ≡ None) }
    ensures withdrawn { IfErr result (λ fault. (fault ≡ Memory)
        ⊎ ((by : Joint) × (first_consumer goal.now rows.entry ≡ Some by) × (fault ≡ Consumed by))) }
{
    match first_consumer(rows, goal) {
        Some(by) => Err(consumed(alloc, by)),
        None => Ok(()),
    }
}
