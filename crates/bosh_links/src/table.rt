//! Candidates by a text that they have.
ghost use Rattle.std.specs.Prelude.{◌≡◌, ◌∷◌, [], ◌++◌, map, take, IfOk, IsOkUnless};
ghost use Rattle.bosh_links.specs.Candidate.{provider_of};
ghost use Rattle.bosh_links.specs.Table.{key_of, providers_in, IsTable};
ghost use Rattle.bosh_links.specs.declared.fault.LinkFault.TheVariants.{Memory};

use crate::LinkFault;
use crate::candidate::Candidate;
use std::alloc::Global;
use std::collections::BTreeMap;

/// Which text of a candidate a table goes by.
#[derive(Clone, Copy)]
pub(crate) enum By {
    Kind,
    PublicName,
}

impl By {
    fn key(self, candidate: Candidate<'_>) -> &[u8]
        ensures { result.now ≡ key_of self (provider_of candidate.entry) }
    {
        match self {
            By::Kind => candidate.kind.as_slice(),
            By::PublicName => candidate.public_name.as_slice(),
        }
    }
}

/// The candidates with one text: one, or the first two of several.
#[derive(Clone, Copy)]
pub(crate) enum Found<'a> {
    One(Candidate<'a>),
    Several(Candidate<'a>, Candidate<'a>),
}

// What is found after one more candidate.
fn with<'a>(found: Option<Found<'a>>, candidate: Candidate<'a>) -> Found<'a>
    ensures { providers_in (Some result) ≡ take 2 (providers_in found.entry ++ provider_of candidate.entry ∷ []) }
{
    match found {
        None => Found::One(candidate),
        Some(Found::One(first)) => Found::Several(first, candidate),
        Some(several) => several,
    }
}

pub(crate) type Table<'a> = BTreeMap<&'a [u8], Found<'a>>;

/// The table of these candidates.
pub(crate) fn table_of<'a>(
    alloc: Global,
    by: By,
    candidates: &[Candidate<'a>],
) -> Result<Table<'a>, LinkFault>
    ensures ok { IfOk result (IsTable by (map provider_of candidates.now)) }
    ensures err { IsOkUnless result Memory }
{
    let mut table = BTreeMap::new(alloc);
    for candidate in candidates {
        let key = by.key(*candidate);
        let found = with(table.get(key).copied(), *candidate);
        table.insert(key, found)?;
    }
    Ok(table)
}
