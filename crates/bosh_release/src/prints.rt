//! The fingerprints of packages.
ghost use Rattle.std.specs.Prelude.{◌≡◌, ◌<◌, ℕ, All, IfErr, IfOk, length, map, slice_index_or};
ghost use Rattle.bosh_release_listing.specs.Parts.{stamp_view};
ghost use Rattle.bosh_release.specs.Collected.{ArePrints, numbers_in_order, print_of, stamp_at};
ghost use Rattle.bosh_release.specs.Prints.{IsFit};
ghost use Rattle.bosh_release.specs.declared.drafted_package.PackageDraft.{PackageDraft as DraftSeen};
ghost use Rattle.bosh_release_files.specs.declared.fault.ReleaseFault.TheVariants.{Memory};
ghost use Rattle.bosh_release_order.specs.Graph.{IsOrder, needs_of};

use crate::draft::Draft;
use crate::drafted_package::PackageDraft;
use bosh_base::{Digest, Seq};
use bosh_release_files::{ReleaseFault, Sources};
use bosh_release_listing::{Stamp, package_fingerprint};
use std::alloc::Global;
use std::collections::BTreeSet;

fn number_set(alloc: Global, numbers: &[usize]) -> Result<BTreeSet<usize>, ReleaseFault>
    ensures numbers { IfOk result (λ set. set.keys ≡ numbers_in_order numbers.now) }
    ensures err { IfErr result (λ fault. fault ≡ Memory) }
{
    let mut set = BTreeSet::new(alloc);
    for number in numbers {
        set.insert(*number)?;
    }
    Ok(set)
}

fn numbers_in_order(alloc: Global, numbers: &[usize]) -> Result<Vec<usize>, ReleaseFault>
    ensures numbers { IfOk result (λ all. all.items ≡ numbers_in_order numbers.now) }
    ensures err { IfErr result (λ fault. fault ≡ Memory) }
{
    let mut all = Vec::new(alloc);
    for number in number_set(alloc, numbers)? {
        all.push(number)?;
    }
    Ok(all)
}

fn stamp_at<'a>(packages: &'a [PackageDraft], prints: &[Digest], place: usize) -> Stamp<'a>
    requires place { place < length packages.now }
    requires prints { length prints.now ≡ length packages.now }
    ensures { stamp_view result ≡ stamp_at packages.now prints.now place }
{
    Stamp {
        name: packages[place].name.as_bytes(),
        digest: prints[place],
    }
}

// The packages at some places with their fingerprints.
fn stamps_at<'a>(
    alloc: Global,
    packages: &'a [PackageDraft],
    prints: &[Digest],
    places: &[usize],
) -> Result<Vec<Stamp<'a>>, ReleaseFault>
    requires places { All (λ place. place < length packages.now) places.now }
    requires prints { length prints.now ≡ length packages.now }
    ensures stamps { IfOk result (λ stamps. map stamp_view stamps.items
        ≡ map (stamp_at packages.now prints.now) places.now) }
    ensures err { IfErr result (λ fault. fault ≡ Memory) }
{
    let mut stamps = Vec::new(alloc);
    for place in places {
        stamps.push(stamp_at(packages, prints, *place))?;
    }
    Ok(stamps)
}

fn deps_of<'a>(
    alloc: Global,
    packages: &'a [PackageDraft],
    prints: &[Digest],
    needs: &[usize],
) -> Result<Vec<Stamp<'a>>, ReleaseFault>
    requires needs { All (λ place. place < length packages.now) needs.now }
    requires prints { length prints.now ≡ length packages.now }
    ensures stamps { IfOk result (λ stamps. map stamp_view stamps.items
        ≡ map (stamp_at packages.now prints.now) (numbers_in_order needs.now)) }
    ensures err { IfErr result (λ fault. fault ≡ Memory) }
{
    let places = numbers_in_order(alloc, needs)?;
    stamps_at(alloc, packages, prints, &places)
}

// The fingerprint of a package, whose needs have theirs.
fn print_of(
    alloc: Global,
    sources: &Sources<'_>,
    packages: &[PackageDraft],
    prints: &[Digest],
    draft: &PackageDraft,
    needs: &[usize],
) -> Result<Digest, ReleaseFault>
    requires needs { All (λ place. place < length packages.now) needs.now }
    requires prints { length prints.now ≡ length packages.now }
    ensures print { IfOk result (λ print. print ≡ print_of sources.now packages.now prints.now draft.now needs.now) }
    ensures err { IfErr result (λ fault. fault ≡ Memory) }
{
    let files = sources.taken(alloc, draft.patterns.as_slice())?;
    let deps = deps_of(alloc, packages, prints, needs)?;
    Ok(package_fingerprint(&draft.name, &draft.script, &files, &deps))
}

fn print_at(
    alloc: Global,
    sources: &Sources<'_>,
    draft: &Draft,
    prints: &[Digest],
    place: usize,
) -> Result<Digest, ReleaseFault>
    requires fit { IsFit draft.now }
    requires place { place < length draft.now.packages }
    requires prints { length prints.now ≡ length draft.now.packages }
    ensures print { IfOk result (λ print. (d : DraftSeen) → print ≡ print_of sources.now draft.now.packages prints.now
        (slice_index_or draft.now.packages place d) (needs_of draft.now.needs place)) }
    ensures err { IfErr result (λ fault. fault ≡ Memory) }
{
    let packages = draft.packages.as_slice();
    let needs = &draft.needs.as_slice()[place];
    print_of(
        alloc,
        sources,
        packages,
        prints,
        &packages[place],
        needs.as_slice(),
    )
}

/// The fingerprints of all packages, each of which stands in the order after those that it needs.
pub(crate) fn prints_of(
    alloc: Global,
    sources: &Sources<'_>,
    draft: &Draft,
    order: &[usize],
) -> Result<Seq<Digest>, ReleaseFault>
    requires fit { IsFit draft.now }
    requires order { IsOrder draft.now.needs order.now }
    ensures prints { IfOk result (ArePrints sources.now draft.now.packages draft.now.needs) }
    ensures err { IfErr result (λ fault. fault ≡ Memory) }
{
    let mut prints = vec![in alloc; Digest([0; 32]); draft.packages.len()]?;
    for place in order {
        let print = print_at(alloc, sources, draft, &prints, *place)?;
        prints[*place] = print;
    }
    Ok(Seq::from(prints))
}
