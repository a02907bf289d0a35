//! Which candidate a consumer is tied to.
ghost use Rattle.std.specs.Prelude.{◌≡◌, ◌⊎◌, List, IfOk, IsOkUnless, map, take};
ghost use Rattle.bosh_links.specs.Candidate.{provider_of};
ghost use Rattle.bosh_links.specs.Links.{tie_between, no_tie, implicit_outcome, named_outcome, outcome, IsAnswer};
ghost use Rattle.bosh_links.specs.Table.{providers_in, AreOf};
ghost use Rattle.bosh_links.specs.declared.fault.LinkFault.TheVariants.{Memory, Ambiguous};
ghost use Rattle.bosh_links.specs.declared.provider.Provider.{Provider};

use crate::candidate::Candidate;
use crate::table::{By, Found, Table, table_of};
use crate::{Consumer, LinkFault, Source};
use bosh_base::{Copyable, Text, Tie, copy_both, copy_three, is_same};
use std::alloc::Global;

/// What consumers may be tied to, by type and by public name.
#[derive(Drop)]
pub struct Candidates<'a> {
    by_kind: Table<'a>,
    by_name: Table<'a>,
}

// The tie of a consumer to its provider.
fn tied(alloc: Global, consumer: &Consumer, provider: Candidate<'_>) -> Result<Tie, LinkFault>
    ensures ok { IfOk result (λ tie. tie ≡ tie_between consumer.now (provider_of provider.entry)) }
    ensures err { IsOkUnless result Memory }
{
    let (consumer, provider, kind) = copy_three(
        &consumer.joint,
        provider.joint,
        &consumer.kind,
        alloc,
    )?;
    Ok(Tie {
        consumer,
        provider,
        kind,
    })
}

// What a consumer without a provider comes to.
fn left_out(alloc: Global, consumer: &Consumer) -> Result<Option<Tie>, LinkFault>
    ensures { IsAnswer result (no_tie consumer.now) }
{
    if consumer.optional {
        return Ok(None);
    }
    Err(LinkFault::NoProvider {
        consumer: consumer.joint.copy(alloc)?,
    })
}

// The refusal of a consumer that has several providers.
fn ambiguous(alloc: Global, first: Candidate<'_>, second: Candidate<'_>) -> LinkFault
    ensures { (result ≡ Memory) ⊎ (result ≡ Ambiguous (provider_of first.entry).joint (provider_of second.entry).joint) }
{
    match copy_both(first.joint, second.joint, alloc) {
        Ok((first, second)) => LinkFault::Ambiguous { first, second },
        Err(_) => LinkFault::Memory,
    }
}

// What a consumer without `from` comes to, by the candidates of its type.
fn implicit(
    alloc: Global,
    consumer: &Consumer,
    found: Option<Found>,
) -> Result<Option<Tie>, LinkFault>
    ensures { (ps : List Provider) → providers_in found.entry ≡ take 2 ps
        → IsAnswer result (implicit_outcome consumer.now ps) }
{
    match found {
        None => left_out(alloc, consumer),
        Some(Found::One(provider)) => Ok(Some(tied(alloc, consumer, provider)?)),
        Some(Found::Several(first, second)) => Err(ambiguous(alloc, first, second)),
    }
}

// What a consumer with `from` comes to, by the candidates of that public name.
fn named(
    alloc: Global,
    consumer: &Consumer,
    name: &Text,
    found: Option<Found>,
) -> Result<Option<Tie>, LinkFault>
    ensures { (ps : List Provider) → providers_in found.entry ≡ take 2 ps
        → IsAnswer result (named_outcome consumer.now name.now ps) }
{
    match found {
        None => Err(LinkFault::UnknownFrom {
            name: name.copy(alloc)?,
        }),
        Some(Found::One(provider)) => {
            if is_same(provider.kind, &consumer.kind) {
                return Ok(Some(tied(alloc, consumer, provider)?));
            }
            Err(LinkFault::TypeDiffers {
                name: name.copy(alloc)?,
            })
        }
        Some(Found::Several(first, second)) => Err(ambiguous(alloc, first, second)),
    }
}

impl<'a> Candidates<'a> {
    /// The tables of these candidates, which stand in the order of their manifest.
    pub fn of(alloc: Global, candidates: &[Candidate<'a>]) -> Result<Candidates<'a>, LinkFault>
        ensures ok { IfOk result (AreOf (map provider_of candidates.now)) }
        ensures err { IsOkUnless result Memory }
    {
        let by_kind = table_of(alloc, By::Kind, candidates)?;
        let by_name = table_of(alloc, By::PublicName, candidates)?;
        Ok(Candidates { by_kind, by_name })
    }

    /// The tie of a consumer to the one candidate of its type, or to the one under the public name that it gives. None
    /// where an optional consumer is blocked or finds no candidate of its type. The work is the logarithm of the candidates.
    pub fn tie(&self, alloc: Global, consumer: &Consumer) -> Result<Option<Tie>, LinkFault>
        ensures { (ps : List Provider) → AreOf ps self.now → IsAnswer result (outcome ps consumer.now) }
    {
        match &consumer.from {
            Source::Implicit => {
                let found = self.by_kind.get(consumer.kind.as_slice()).copied();
                implicit(alloc, consumer, found)
            }
            Source::Named(name) => {
                let found = self.by_name.get(name.as_slice()).copied();
                named(alloc, consumer, name, found)
            }
            Source::Blocked => left_out(alloc, consumer),
        }
    }
}
