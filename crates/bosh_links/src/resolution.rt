ghost use Rattle.std.specs.Prelude.{IfOk, IsOkUnless};
ghost use Rattle.bosh_links.specs.Links.{resolution, IsAnswer};
ghost use Rattle.bosh_links.specs.Table.{AreOf};
ghost use Rattle.bosh_links.specs.declared.fault.LinkFault.TheVariants.{Memory};

use crate::candidate::all_provided;
use crate::{Candidates, Consumer, LinkFault, Provider};
use bosh_base::{Seq, Tie};
use std::alloc::Global;

fn candidates_of(alloc: Global, providers: &[Provider]) -> Result<Candidates<'_>, LinkFault>
    ensures ok { IfOk result (AreOf providers.now) }
    ensures err { IsOkUnless result Memory }
{
    let provided = all_provided(alloc, providers)?;
    Candidates::of(alloc, provided.as_slice())
}

/// Ties each consumer to the one provider of its type, or to the one under the public name that it
/// gives. The providers and the consumers stand in manifest order, and the ties in the consumers' order.
/// The refusal is that of the first consumer that has one.
// Dear to prove: the ties so far and the tables are alive where a consumer is refused.
pub fn resolve(
    alloc: Global,
    providers: &[Provider],
    consumers: &[Consumer],
) -> Result<Seq<Tie>, LinkFault>
    ensures { IsAnswer result (resolution providers.now consumers.now) }
{
    let candidates = candidates_of(alloc, providers)?;
    let mut ties = Vec::new(alloc);
    for consumer in consumers {
        if let Some(tie) = candidates.tie(alloc, consumer)? {
            ties.push(tie)?;
        }
    }
    Ok(Seq::from(ties))
}
