//! Which packages are needed, by their places.
ghost use Rattle.std.specs.Prelude.{◌≡◌, ◌<◌, All, Contains, IfOk, IsFalse, IsTrue, MatchOption, ℕ, length};
ghost use Rattle.bosh_release.specs.Sound.{names_of};
ghost use Rattle.bosh_release_files.specs.Sources.{IsInOrder};
ghost use Rattle.bosh_release_order.specs.Graph.{HasNoCycle, IsGraph};
ghost use Rattle.bosh_sound.specs.Places.{ArePlaces, IsGraphOf, texts_of};
ghost use Rattle.bosh_sound.specs.Needs.{AreNeedsSound, KnowAll};

use crate::names::place_of;
use bosh_base::{Name, PackageSpec, Seq};
use bosh_release_order::{Order, order_of};
use std::alloc::{AllocError, Global};

// Each name is looked for among the names in as many steps as the logarithm of their number.
fn places_of(
    alloc: Global,
    names: &[&Name],
    wanted: &[Name],
) -> Result<Option<Seq<usize>>, AllocError>
    requires { IsInOrder (texts_of names.now) }
    ensures { IfOk result (λ found. MatchOption found (¬ All (Contains (texts_of names.now)) wanted.now)
        (ArePlaces (texts_of names.now) wanted.now)) }
{
    let mut places = Vec::new(alloc);
    for name in wanted {
        let Some(place) = place_of(names, name) else {
            return Ok(None);
        };
        places.push(place)?;
    }
    Ok(Some(Seq::from(places)))
}

// The places of the packages that each package needs, where all are there.
fn graph_of(
    alloc: Global,
    names: &[&Name],
    packages: &[PackageSpec],
) -> Result<Option<Seq<Seq<usize>>>, AllocError>
    requires { IsInOrder (texts_of names.now) }
    ensures { IfOk result (λ found. MatchOption found (¬ KnowAll (texts_of names.now) packages.now)
        (IsGraphOf (texts_of names.now) packages.now)) }
{
    let mut graph = Vec::new(alloc);
    for package in packages {
        let Some(places) = places_of(alloc, names, package.deps.as_slice())? else {
            return Ok(None);
        };
        graph.push(places)?;
    }
    Ok(Some(Seq::from(graph)))
}

fn has_no_cycle(alloc: Global, graph: &[Seq<usize>]) -> Result<bool, AllocError>
    requires { IsGraph graph.now }
    ensures yes { IfOk result (λ yes. IsTrue yes → HasNoCycle graph.now) }
    ensures no { IfOk result (λ yes. IsFalse yes → ¬ HasNoCycle graph.now) }
{
    match order_of(alloc, graph)? {
        Order::Whole(_) => Ok(true),
        Order::Cycle(_) => Ok(false),
    }
}

/// Whether packages, whose names these are, need only one another, and none needs itself.
pub(crate) fn are_needs_sound(
    alloc: Global,
    names: &[&Name],
    packages: &[PackageSpec],
) -> Result<bool, AllocError>
    requires names { texts_of names.now ≡ names_of packages.now }
    requires order { IsInOrder (texts_of names.now) }
    ensures yes { IfOk result (λ yes. IsTrue yes → AreNeedsSound packages.now) }
    ensures no { IfOk result (λ yes. IsFalse yes → ¬ AreNeedsSound packages.now) }
{
    match graph_of(alloc, names, packages)? {
        Some(graph) => has_no_cycle(alloc, graph.as_slice()),
        None => Ok(false),
    }
}
