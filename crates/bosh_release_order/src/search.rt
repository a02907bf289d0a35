//! The places that one needs.
ghost use Rattle.std.specs.Prelude.{◌≡◌, ◌∷◌, ℕ, ◌<◌, [], All, IfOk, OnOk, length};
ghost use Rattle.bosh_release_order.specs.Graph.{IsGraph, needs_of};
ghost use Rattle.bosh_release_order.specs.Search.{IsReach, Notes};

use bosh_base::Seq;
use std::alloc::{AllocError, Global};

fn note_one(need: usize, found: &mut Vec<bool>, work: &mut Vec<usize>) -> Result<(), AllocError>
    requires { need < length found.old.items }
    ensures { OnOk result (Notes (need ∷ []) found.old.items work.old.items found.new.items work.new.items) }
{
    if found[need] {
        return Ok(());
    }
    found[need] = true;
    work.push(need)?;
    Ok(())
}

fn note(needs: &[usize], found: &mut Vec<bool>, work: &mut Vec<usize>) -> Result<(), AllocError>
    requires { All (λ need. need < length found.old.items) needs.now }
    ensures { OnOk result (Notes needs.now found.old.items work.old.items found.new.items work.new.items) }
{
    for need in needs {
        note_one(*need, found, work)?;
    }
    Ok(())
}

/// Which places one needs, at once or by others.
pub(crate) fn reach(
    alloc: Global,
    graph: &[Seq<usize>],
    place: usize,
) -> Result<Vec<bool>, AllocError>
    requires graph { IsGraph graph.now }
    requires place { place < length graph.now }
    ensures { IfOk result (λ found. IsReach graph.now place found.items) }
{
    let mut found = vec![in alloc; false; graph.len()]?;
    let mut work = Vec::new(alloc);
    note(graph[place].as_slice(), &mut found, &mut work)?;
    while let Some(at) = work.pop() {
        note(graph[at].as_slice(), &mut found, &mut work)?;
    }
    Ok(found)
}
