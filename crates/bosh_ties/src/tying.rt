//! What each consumer of a deployment is tied to.
ghost use Rattle.std.specs.Prelude.{◌≡◌, ◌++◌, List, Result, OnOk};
ghost use Rattle.bosh_base.specs.declared.link.Tie.{Tie};
ghost use Rattle.bosh_links.specs.Links as links;
ghost use Rattle.bosh_links.specs.declared.fault.LinkFault.{LinkFault};
ghost use Rattle.bosh_share.specs.Shared as shared;
ghost use Rattle.bosh_share.specs.declared.fault.ShareFault.{ShareFault};
ghost use Rattle.bosh_manifest_names.specs.Answer.{IsAnswer, with_fault};
ghost use Rattle.bosh_ties.specs.Links.{own_ties, ties, ties_across};
ghost use Rattle.bosh_manifest_names.specs.declared.fault.GoalFault.TheVariants.{Link, Share};

use crate::gathering::of_groups;
use bosh_base::{CopyFault, Copyable, DepOffers, Name, Seq, Tie};
use bosh_links::{Consumer, LinkFault, Provider, resolve};
use bosh_manifest_names::{GoalFault, UsedGroup};
use bosh_share::{Across, ShareFault, resolve_across};
use std::alloc::Global;

fn linked(answer: Result<Seq<Tie>, LinkFault>) -> Result<Seq<Tie>, GoalFault>
    ensures { (told : Result (List Tie) LinkFault) → links.IsAnswer answer told → IsAnswer result (with_fault Link told) }
{
    match answer {
        Ok(ties) => Ok(ties),
        Err(LinkFault::Memory) => Err(GoalFault::Memory),
        Err(fault) => Err(GoalFault::Link(fault)),
    }
}

fn shared(answer: Result<Seq<Tie>, ShareFault>) -> Result<Seq<Tie>, GoalFault>
    ensures { (told : Result (List Tie) ShareFault) → shared.IsAnswer answer told → IsAnswer result (with_fault Share told) }
{
    match answer {
        Ok(ties) => Ok(ties),
        Err(ShareFault::Memory) => Err(GoalFault::Memory),
        Err(fault) => Err(GoalFault::Share(fault)),
    }
}

fn own_ties(alloc: Global, dep: &Name, groups: &[UsedGroup]) -> Result<Seq<Tie>, GoalFault>
    ensures { IsAnswer result (own_ties dep.now groups.now) }
{
    let providers = of_groups::<Provider>(alloc, dep, groups)?;
    let consumers = of_groups::<Consumer>(alloc, dep, groups)?;
    linked(resolve(alloc, providers.as_slice(), consumers.as_slice()))
}

fn ties_across(
    alloc: Global,
    dep: &Name,
    groups: &[UsedGroup],
    known: &[DepOffers],
) -> Result<Seq<Tie>, GoalFault>
    ensures { IsAnswer result (ties_across dep.now groups.now known.now) }
{
    let consumers = of_groups::<Across>(alloc, dep, groups)?;
    shared(resolve_across(alloc, consumers.as_slice(), known))
}

fn add_all(alloc: Global, others: &[Tie], ties: &mut Seq<Tie>) -> Result<(), CopyFault>
    ensures { OnOk result (ties.new ≡ ties.old ++ others.now) }
{
    for tie in others {
        ties.push(tie.copy(alloc)?).map_err(|_| CopyFault::Memory)?;
    }
    Ok(())
}

/// What each link that a job consumes is tied to: first the ties within the deployment, then those to links that others
/// share. `known` has what each recorded deployment shares. The work is that of the links, the offers and what is said of
/// them, each times a logarithm.
pub fn ties(
    alloc: Global,
    dep: &Name,
    groups: &[UsedGroup],
    known: &[DepOffers],
) -> Result<Seq<Tie>, GoalFault>
    ensures { IsAnswer result (ties dep.now groups.now known.now) }
{
    let mut ties = own_ties(alloc, dep, groups)?;
    let others = ties_across(alloc, dep, groups, known)?;
    add_all(alloc, others.as_slice(), &mut ties)?;
    Ok(ties)
}
