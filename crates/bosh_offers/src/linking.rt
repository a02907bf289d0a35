//! What the links of jobs give to their templates.
ghost use Rattle.std.specs.Prelude.{◌≡◌, [], IfOk, OnOk, option_map};
ghost use Rattle.std.specs.List.{flat_map};
ghost use Rattle.std.specs.Option.{option_copied};
ghost use Rattle.bosh_ties.specs.Spot.{spot_joint};
ghost use Rattle.bosh_offers.specs.Tied.{AreBySocket, Stands, all_offers, env_of, job_links, offer_at, offers_of};

use crate::pushing::push_some;
use crate::socket::{BySocket, Socket, first_of, put_all, socket_of};
use bosh_base::{DepOffers, Name, Offer, Tie};
use bosh_manifest_names::UsedJob;
use bosh_template::LinkEnv;
use bosh_ties::Spot;
use std::alloc::{AllocError, Global};
use std::collections::BTreeMap;
use std::marker::Model;

/// What the links of a deployment may be tied to.
#[derive(Drop)]
pub struct Offered<'a> {
    ties: &'a [Tie],
    own: &'a [Offer],
    known: &'a [DepOffers],
    by_consumer: BySocket<'a, Tie>,
    by_provider: BySocket<'a, Offer>,
}

impl<'a> Model for Offered<'a> {
    ghost use Rattle.std.specs.Coded.{codes};
    ghost use Rattle.bosh_offers.specs.Tied.{AreBySocket, Offered, all_offers};

    ghost Value = { Offered };

    ghost coded = { Prim.hlevel codes };

    ghost view = { λ offered. record {
      ties = offered.ties.now;
      own = offered.own.now;
      known = offered.known.now;
    } };

    ghost invariant = { λ offered.
        AreBySocket (λ tie. tie.consumer) (λ tie. tie.kind) offered.ties.now offered.by_consumer
        × AreBySocket (λ offer. offer.joint) (λ offer. offer.kind) (all_offers offered.own.now offered.known.now)
        offered.by_provider };
}

fn ties_by_consumer(alloc: Global, ties: &[Tie]) -> Result<BySocket<'_, Tie>, AllocError>
    ensures { IfOk result (AreBySocket (λ tie. tie.consumer) (λ tie. tie.kind) ties.now) }
{
    let mut table = BTreeMap::new(alloc);
    put_all(&mut table, ties)?;
    Ok(table)
}

fn put_known<'a>(table: &mut BySocket<'a, Offer>, known: &'a [DepOffers]) -> Result<(), AllocError>
    ensures { OnOk result (
        AreBySocket (λ offer. offer.joint) (λ offer. offer.kind) [] table.old
        → AreBySocket (λ offer. offer.joint) (λ offer. offer.kind) (flat_map offers_of known.now) table.new) }
{
    for place in (0..known.len()).rev() {
        put_all(table, known[place].offers.as_slice())?;
    }
    Ok(())
}

fn offers_by_provider<'a>(
    alloc: Global,
    own: &'a [Offer],
    known: &'a [DepOffers],
) -> Result<BySocket<'a, Offer>, AllocError>
    ensures { IfOk result
        (AreBySocket (λ offer. offer.joint) (λ offer. offer.kind) (all_offers own.now known.now)) }
{
    let mut table = BTreeMap::new(alloc);
    put_known(&mut table, known)?;
    put_all(&mut table, own)?;
    Ok(table)
}

fn socket_at<'o, 'a: 'o>(spot: Spot<'a>) -> Socket<'o>
    ensures { Stands (spot_joint spot.entry) spot.entry.link.now.kind result }
{
    Socket {
        dep: spot.dep.as_bytes(),
        group: spot.group.as_bytes(),
        job: spot.job.as_bytes(),
        link: spot.link.name.as_bytes(),
        kind: spot.link.kind.as_slice(),
    }
}

impl<'a> Offered<'a> {
    /// The ties of a deployment, what its own jobs offer, and what each recorded deployment shares.
    pub fn of(
        alloc: Global,
        ties: &'a [Tie],
        own: &'a [Offer],
        known: &'a [DepOffers],
    ) -> Result<Offered<'a>, AllocError>
        ensures { IfOk result (λ offered. offered
            ≡ record { ties = ties.now; own = own.now; known = known.now }) }
    {
        let by_consumer = ties_by_consumer(alloc, ties)?;
        let by_provider = offers_by_provider(alloc, own, known)?;
        Ok(Offered {
            ties,
            own,
            known,
            by_consumer,
            by_provider,
        })
    }

    /// The offer that a link is tied to, where it has a tie.
    pub fn of_link<'s: 'a>(&self, spot: Spot<'s>) -> Option<&'a Offer>
        ensures { option_copied result ≡ offer_at self.now (spot_joint spot.entry) spot.entry.link.now.kind }
    {
        match first_of(&self.by_consumer, socket_at(spot)) {
            None => None,
            Some(tie) => first_of(&self.by_provider, socket_of(&tie.provider, &tie.kind)),
        }
    }
}

// What a link gives to the templates of its job, where it has a tie.
fn link_env<'o, 'a: 'o>(
    alloc: Global,
    offered: &Offered<'o>,
    spot: Spot<'a>,
) -> Result<Option<LinkEnv<'o>>, AllocError>
    ensures { IfOk result (λ found. found ≡ option_map (env_of spot.entry.link.now)
        (offer_at offered.now (spot_joint spot.entry) spot.entry.link.now.kind)) }
{
    let Some(offer) = offered.of_link(spot) else {
        return Ok(None);
    };
    let listed = offer.listed.as_slice();
    let props = offer.properties.as_slice();
    let addrs = offer.addrs.as_slice();
    Ok(Some(LinkEnv::of(alloc, &spot.link.name, listed, props, addrs)?))
}

/// Those of the links that a job consumes which have a tie, in the order of its specification.
pub fn links<'o, 'a: 'o>(
    alloc: Global,
    offered: &Offered<'o>,
    dep: &'a Name,
    group: &'a Name,
    used: &UsedJob<'a>,
) -> Result<Vec<LinkEnv<'o>>, AllocError>
    ensures { IfOk result (λ links. links.items ≡ job_links offered.now dep.now group.now used.now) }
{
    let mut links = Vec::new(alloc);
    let consumed = used.spec().consumes.as_slice();
    for link in consumed {
        let spot = Spot::of(dep, group, used, link);
        push_some(link_env(alloc, offered, spot)?, &mut links)?;
    }
    Ok(links)
}
