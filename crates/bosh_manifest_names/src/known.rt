//! Names that are known.
ghost use Rattle.std.specs.Prelude.{◌≡◌, true};
ghost use Rattle.std.specs.Option.{option_copied};
ghost use Rattle.bosh_manifest_names.specs.Answer.{IsAnswerSeen};
ghost use Rattle.bosh_manifest_names.specs.Uses.{none_unknown, or_unknown};

use crate::{GoalFault, Kind};
use bosh_base::{Copyable, Name};
use std::alloc::Global;

/// What was found for a name. A name for which nothing was found is not known.
pub(crate) fn known<'a, T>(
    alloc: Global,
    kind: Kind,
    name: &Name,
    found: Option<&'a T>,
) -> Result<&'a T, GoalFault>
    ensures { IsAnswerSeen (λ thing. thing.now) result (or_unknown kind name.now (option_copied found.entry)) }
{
    match found {
        Some(thing) => Ok(thing),
        None => Err(GoalFault::Unknown {
            kind,
            name: name.copy(alloc)?,
        }),
    }
}

/// Refuses a name that is not known, where there is one.
pub(crate) fn none_unknown(
    alloc: Global,
    kind: Kind,
    unknown: Option<&Name>,
) -> Result<(), GoalFault>
    ensures { IsAnswerSeen (λ _. true) result (none_unknown kind (option_copied unknown.entry)) }
{
    match unknown {
        None => Ok(()),
        Some(name) => Err(GoalFault::Unknown {
            kind,
            name: name.copy(alloc)?,
        }),
    }
}
