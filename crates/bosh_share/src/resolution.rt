ghost use Rattle.std.specs.Prelude.{◌≡◌, List, None};
ghost use Rattle.bosh_base.specs.declared.offer.DepOffers.{DepOffers};
ghost use Rattle.bosh_share.specs.Directory.{IsDirectory};
ghost use Rattle.bosh_links.specs.Links.{outcome};
ghost use Rattle.bosh_links.specs.Table.{AreOf};
ghost use Rattle.bosh_links.specs.declared.provider.Provider.{Provider};
ghost use Rattle.bosh_share.specs.Shared.{across_outcome, across_resolution, consumer_of, outcome_in, shared_answer, IsAnswer};

use crate::directory::{Directory, directory_of};
use crate::{Across, ShareFault};
use bosh_base::{Copyable, DepOffers, Seq, Tie};
use bosh_links::{Candidates, LinkFault};
use std::alloc::Global;

fn shared(answer: Result<Option<Tie>, LinkFault>) -> Result<Option<Tie>, ShareFault>
    ensures { result ≡ shared_answer answer }
{
    match answer {
        Ok(tie) => Ok(tie),
        Err(fault) => Err(ShareFault::from(fault)),
    }
}

// What one consumer comes to among these offers.
fn tie_among(
    alloc: Global,
    across: &Across,
    candidates: &Candidates,
) -> Result<Option<Tie>, ShareFault>
    ensures { (ps : List Provider) → AreOf ps candidates.now
        → IsAnswer result (shared_answer (outcome ps (consumer_of across.now))) }
{
    let consumer = across.consumer(alloc)?;
    shared(candidates.tie(alloc, &consumer))
}

// The refusal of a consumer whose deployment is not there.
fn no_deployment(alloc: Global, across: &Across) -> Result<Option<Tie>, ShareFault>
    ensures { IsAnswer result (outcome_in None across.now) }
{
    let name = across.dep.copy(alloc)?;
    Err(ShareFault::NoDeployment { name })
}

// What one consumer comes to.
fn tie_of(alloc: Global, across: &Across, directory: &Directory) -> Result<Option<Tie>, ShareFault>
    ensures { (known : List DepOffers) → IsDirectory known directory.now → IsAnswer result (across_outcome known across.now) }
{
    match directory.get(across.dep.as_bytes()) {
        Some(candidates) => tie_among(alloc, across, candidates),
        None => no_deployment(alloc, across),
    }
}

/// Ties each consumer to the one link that its deployment shares under the public name that it gives, or else of its type.
/// `known` has what each recorded deployment shares, in the order of its manifest. The consumers stand in manifest order,
/// and the ties in theirs; an optional consumer that gives no name may go without one. The refusal is that of the first
/// consumer that has one. The work is that of the consumers and the offers, each times a logarithm.
// Dear to prove: the ties so far and the directory are alive where a consumer is refused.
pub fn resolve_across(
    alloc: Global,
    list: &[Across],
    known: &[DepOffers],
) -> Result<Seq<Tie>, ShareFault>
    ensures { IsAnswer result (across_resolution known.now list.now) }
{
    let directory = directory_of(alloc, known)?;
    let mut ties = Vec::new(alloc);
    for across in list {
        if let Some(tie) = tie_of(alloc, across, &directory)? {
            ties.push(tie)?;
        }
    }
    Ok(Seq::from(ties))
}
