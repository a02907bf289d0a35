//! What deployments offer, by their names.
ghost use Rattle.std.specs.Prelude.{◌≡◌, ◌∷◌, [], ◌++◌, List, map, IfOk, IsOkUnless, OnOk};
ghost use Rattle.bosh_base.specs.declared.offer.DepOffers.{DepOffers};
ghost use Rattle.bosh_links.specs.Candidate.{offered_provider, provider_of};
ghost use Rattle.bosh_links.specs.Table.{AreOf};
ghost use Rattle.bosh_links.specs.declared.fault.LinkFault.TheVariants as link;
ghost use Rattle.bosh_share.specs.Directory.{IsDirectory};
ghost use Rattle.bosh_share.specs.declared.fault.ShareFault.TheVariants.{Memory};

use crate::ShareFault;
use bosh_base::{DepOffers, Offer};
use bosh_links::{Candidate, Candidates, LinkFault};
use std::alloc::{AllocError, Global};
use std::collections::BTreeMap;

pub(crate) type Directory<'a> = BTreeMap<&'a [u8], Candidates<'a>>;

// The offers as candidates, in their order.
fn all_offered(alloc: Global, offers: &[Offer]) -> Result<Vec<Candidate<'_>>, AllocError>
    ensures { IfOk result (λ candidates. map provider_of candidates.items ≡ map offered_provider offers.now) }
{
    let mut candidates = Vec::with_capacity(alloc, offers.len())?;
    for offer in offers {
        candidates.push(Candidate::offered(offer))?;
    }
    Ok(candidates)
}

// What a deployment offers, by type and by public name.
fn candidates_of(alloc: Global, known: &DepOffers) -> Result<Candidates<'_>, LinkFault>
    ensures ok { IfOk result (AreOf (map offered_provider known.now.offers)) }
    ensures err { IsOkUnless result link.Memory }
{
    let offered = all_offered(alloc, known.offers.as_slice())?;
    Candidates::of(alloc, offered.as_slice())
}

// Adds what one more deployment offers, unless one of its name is there.
fn add<'a>(
    alloc: Global,
    known: &'a DepOffers,
    directory: &mut Directory<'a>,
) -> Result<(), ShareFault>
    ensures ok { OnOk result ((before : List DepOffers) → IsDirectory before directory.old
        → IsDirectory (before ++ known.now ∷ []) directory.new) }
    ensures err { IsOkUnless result Memory }
{
    let name = known.dep.as_bytes();
    if directory.contains_key(name) {
        return Ok(());
    }
    let candidates = candidates_of(alloc, known)?;
    directory.insert(name, candidates)?;
    Ok(())
}

/// What each of these deployments offers. Of two with one name the first counts.
pub(crate) fn directory_of(alloc: Global, known: &[DepOffers]) -> Result<Directory<'_>, ShareFault>
    ensures ok { IfOk result (IsDirectory known.now) }
    ensures err { IsOkUnless result Memory }
{
    let mut directory = BTreeMap::new(alloc);
    for dep in known {
        add(alloc, dep, &mut directory)?;
    }
    Ok(directory)
}
