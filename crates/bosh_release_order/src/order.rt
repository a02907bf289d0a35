ghost use Rattle.std.specs.Prelude.{◌≡◌, ◌<◌, IfOk, count_by, length, map};
ghost use Rattle.bosh_release_order.specs.Graph.{Graph, IsGraph, IsOrder};
ghost use Rattle.bosh_release_order.specs.Numbers.{Ascend};
ghost use Rattle.bosh_release_order.specs.Search.{AreRanks, IsAnswered, IsRankAt, IsRanked};

use crate::search::reach;
use bosh_base::Seq;
use std::alloc::{AllocError, Global};

/// In which order places may be taken.
#[derive(Drop)]
pub enum Order {
    /// Each place after all that it needs.
    Whole(Seq<usize>),
    /// There is no such order: this is the first place that needs itself.
    Cycle(usize),
}

/// A place with the number of those that it needs, at once or by others.
#[derive(Clone, Copy, PartialEq, Eq, PartialOrd, Ord)]
pub(crate) struct Ranked {
    pub rank: usize,
    pub place: usize,
}

/// The ranks of all places, or the first place that needs itself.
#[derive(Drop)]
pub(crate) enum Ranking {
    Whole(Seq<Ranked>),
    Cycle(usize),
}

fn count(found: &[bool]) -> usize
    ensures { result ≡ count_by (λ b. b) found.now }
{
    found.iter().filter(|found| **found).count()
}

// Where the place needs itself, it has no rank.
fn rank_at(alloc: Global, graph: &[Seq<usize>], place: usize) -> Result<Option<usize>, AllocError>
    requires graph { IsGraph graph.now }
    requires place { place < length graph.now }
    ensures { IfOk result (IsRankAt graph.now place) }
{
    let found = reach(alloc, graph, place)?;
    if found[place] {
        return Ok(None);
    }
    Ok(Some(count(&found)))
}

fn ranks_of(alloc: Global, graph: &[Seq<usize>]) -> Result<Ranking, AllocError>
    requires { IsGraph graph.now }
    ensures { IfOk result (IsRanked graph.now) }
{
    let mut ranks = Vec::new(alloc);
    for place in 0..graph.len() {
        match rank_at(alloc, graph, place)? {
            Some(rank) => ranks.push(Ranked { rank, place })?,
            None => return Ok(Ranking::Cycle(place)),
        }
    }
    Ok(Ranking::Whole(Seq::from(ranks)))
}

fn places_of(alloc: Global, ranks: &[Ranked]) -> Result<Seq<usize>, AllocError>
    ensures { IfOk result (λ places. places ≡ map (λ it. it.place) ranks.now) }
{
    let places: Vec<usize> = ranks.iter().map(|it| it.place).collect(alloc)?;
    Ok(Seq::from(places))
}

// The places by their ranks: a place has a greater rank than those that it needs.
pub(crate) fn by_rank(alloc: Global, ranks: &[Ranked]) -> Result<Seq<usize>, AllocError>
    ensures { IfOk result (λ places. (graph : Graph) → IsGraph graph
        → Ascend graph ranks.now → IsOrder graph places) }
{
    let mut sorted = Vec::from_slice(alloc, ranks)?;
    sorted.sort()?;
    places_of(alloc, &sorted)
}

/// The answer for places each of which is searched from: as many walks over the graph as it has places.
pub(crate) fn searched(alloc: Global, graph: &[Seq<usize>]) -> Result<Order, AllocError>
    requires { IsGraph graph.now }
    ensures { IfOk result (IsAnswered graph.now) }
{
    match ranks_of(alloc, graph)? {
        Ranking::Whole(ranks) => Ok(Order::Whole(by_rank(alloc, ranks.as_slice())?)),
        Ranking::Cycle(place) => Ok(Order::Cycle(place)),
    }
}
