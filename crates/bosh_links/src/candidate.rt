//! What a consumer may be tied to.
ghost use Rattle.std.specs.Prelude.{◌≡◌, map, IfOk};
ghost use Rattle.bosh_links.specs.Candidate.{offered_provider, provider_of};

use crate::Provider;
use bosh_base::{Joint, Offer, Text};
use std::alloc::{AllocError, Global};

/// A link that a consumer may be tied to: one that its own deployment provides, or one that another offers.
#[derive(Clone, Copy)]
pub struct Candidate<'a> {
    pub(crate) joint: &'a Joint,
    /// The type of the link.
    pub(crate) kind: &'a Text,
    pub(crate) public_name: &'a Text,
}

impl<'a> Candidate<'a> {
    /// A link that the consumer's own deployment provides.
    pub fn provided(provider: &'a Provider) -> Candidate<'a>
        ensures { provider_of result ≡ provider.now }
    {
        Candidate {
            joint: &provider.joint,
            kind: &provider.kind,
            public_name: &provider.public_name,
        }
    }

    /// A link that another deployment offers.
    pub fn offered(offer: &'a Offer) -> Candidate<'a>
        ensures { provider_of result ≡ offered_provider offer.now }
    {
        Candidate {
            joint: &offer.joint,
            kind: &offer.kind,
            public_name: &offer.public_name,
        }
    }
}

/// The links that a deployment provides, in their order.
pub(crate) fn all_provided(
    alloc: Global,
    providers: &[Provider],
) -> Result<Vec<Candidate<'_>>, AllocError>
    ensures { IfOk result (λ candidates. map provider_of candidates.items ≡ providers.now) }
{
    let mut candidates = Vec::with_capacity(alloc, providers.len())?;
    for provider in providers {
        candidates.push(Candidate::provided(provider))?;
    }
    Ok(candidates)
}
