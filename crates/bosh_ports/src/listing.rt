// The paths below a folder.
ghost use Rattle.std.specs.Prelude.{◌≡◌, ◌≤◌, ◌⊎◌, ◌++◌, ◌∷◌, [], length, IfErr, IsErrOf, OnOk, filter};
ghost use Rattle.std.specs.BTreeMap.{keys};
ghost use Rattle.std.specs.List.Sorted.{IsStrictlySortedBy};
ghost use Rattle.bosh_ports.specs.Contents.{contents};
ghost use Rattle.bosh_ports.specs.Shelf.{AnswersPaths, is_below, key_order};
ghost use Rattle.bosh_ports.specs.declared.shelf.ShelfFault.TheVariants.{Failed, Memory, TooLarge};

use crate::shelf::{MOST_PATHS, is_below};
use crate::{Paths, ShelfFault};
use std::alloc::Global;
use std::collections::BTreeMap;

/// The paths below a folder, of the keys of a map.
// Dear to prove, since the list is alive wherever a path may be one too many.
pub(crate) fn paths_below<V>(
    alloc: Global,
    files: &BTreeMap<Vec<u8>, V>,
    folder: &[u8],
) -> Result<Paths, ShelfFault>
    ensures answer { AnswersPaths result (filter (is_below folder.now) (contents (keys files.now))) }
    ensures ordered { IsStrictlySortedBy key_order (keys files.now) }
    ensures never_fails { IsErrOf result ShelfFault.Failed → ⊥ }
{
    let mut paths = Paths::new(alloc);
    for path in files.keys() {
        if is_below(folder, path) {
            add(alloc, &mut paths, path)?;
        }
    }
    if paths.is_empty() {
        return Err(ShelfFault::Absent);
    }
    Ok(paths)
}

// Puts a copy of a path at the end of a list of `MOST_PATHS` at most.
fn add(alloc: Global, paths: &mut Paths, path: &[u8]) -> Result<(), ShelfFault>
    ensures ok { OnOk result ((paths.new ≡ paths.old ++ path.now ∷ []) × (length paths.new ≤ MOST_PATHS)) }
    ensures too_large { result ≡ Err ShelfFault.TooLarge → MOST_PATHS ≤ length paths.old }
    ensures fault { IfErr result (λ fault. (fault ≡ ShelfFault.TooLarge) ⊎ (fault ≡ ShelfFault.Memory)) }
{
    if paths.len() >= MOST_PATHS {
        return Err(ShelfFault::TooLarge);
    }
    match paths.push(path.to_vec(alloc)?) {
        Ok(()) => Ok(()),
        Err(_) => Err(ShelfFault::Memory),
    }
}
