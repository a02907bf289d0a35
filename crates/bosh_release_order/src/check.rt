//! What numbers of places say of their order.
ghost use Rattle.std.specs.Prelude.{◌≡◌, ◌<◌, ◌≤◌, All, IfNone, IfOk, IfSome, IsTrue, ℕ, length};
ghost use Rattle.bosh_release_order.specs.Graph.{IsGraph, Reaches};
ghost use Rattle.bosh_release_order.specs.Numbers.{AreAbove, Ascend, IsAbove, NeverRise, RanksOf, number_of};
ghost use Rattle.bosh_release_order.specs.Search.{IsAnswered};

use crate::order::{Order, Ranked, by_rank};
use crate::search::reach;
use bosh_base::Seq;
use std::alloc::{AllocError, Global};

fn number_of(numbers: &[usize], place: usize) -> usize
    ensures { result ≡ number_of numbers.now place }
{
    numbers.get(place).copied().unwrap_or(0)
}

// Whether each of some places has a number below one.
fn are_below(numbers: &[usize], number: usize, needs: &[usize]) -> bool
    ensures { IsTrue result → All (λ need. number_of numbers.now need < number) needs.now }
{
    needs.iter().all(|need| number_of(numbers, *need) < number)
}

// The first place whose number is not above those of all that it needs.
fn first_level(graph: &[Seq<usize>], numbers: &[usize]) -> Option<usize>
    ensures first { IfSome result (λ place. (place < length graph.now) × AreAbove graph.now numbers.now place) }
    ensures none { IfNone result (AreAbove graph.now numbers.now (length graph.now)) }
{
    for place in 0..graph.len() {
        let needs = graph[place].as_slice();
        if !are_below(numbers, number_of(numbers, place), needs) {
            return Some(place);
        }
    }
    None
}

fn are_not_above(numbers: &[usize], number: usize, needs: &[usize]) -> bool
    ensures { IsTrue result → All (λ need. number_of numbers.now need ≤ number) needs.now }
{
    needs.iter().all(|need| number_of(numbers, *need) <= number)
}

// Whether no place needs one of a greater number.
fn never_rise(graph: &[Seq<usize>], numbers: &[usize]) -> bool
    ensures { IsTrue result → NeverRise graph.now numbers.now }
{
    for place in 0..graph.len() {
        let needs = graph[place].as_slice();
        if !are_not_above(numbers, number_of(numbers, place), needs) {
            return false;
        }
    }
    true
}

fn needs_itself(alloc: Global, graph: &[Seq<usize>], place: usize) -> Result<bool, AllocError>
    requires graph { IsGraph graph.now }
    requires place { place < length graph.now }
    ensures { IfOk result (λ does. IsTrue does → Reaches graph.now place place) }
{
    let found = reach(alloc, graph, place)?;
    Ok(found[place])
}

// The places with their numbers.
fn ranks_of(
    alloc: Global,
    graph: &[Seq<usize>],
    numbers: &[usize],
) -> Result<Vec<Ranked>, AllocError>
    ensures { IfOk result (λ ranks. RanksOf graph.now numbers.now ranks.items (length graph.now)) }
{
    let mut ranks = Vec::new(alloc);
    for place in 0..graph.len() {
        ranks.push(Ranked {
            rank: number_of(numbers, place),
            place,
        })?;
    }
    Ok(ranks)
}

fn order_by(alloc: Global, graph: &[Seq<usize>], numbers: &[usize]) -> Result<Order, AllocError>
    requires graph { IsGraph graph.now }
    requires above { AreAbove graph.now numbers.now (length graph.now) }
    ensures { IfOk result (IsAnswered graph.now) }
{
    let ranks = ranks_of(alloc, graph, numbers)?;
    Ok(Order::Whole(by_rank(alloc, &ranks)?))
}

/// The answer that numbers show, where they show one.
pub(crate) fn shown(
    alloc: Global,
    graph: &[Seq<usize>],
    numbers: &[usize],
) -> Result<Option<Order>, AllocError>
    requires { IsGraph graph.now }
    ensures { IfOk result (λ shown. IfSome shown (IsAnswered graph.now)) }
{
    let Some(place) = first_level(graph, numbers) else {
        return Ok(Some(order_by(alloc, graph, numbers)?));
    };
    if never_rise(graph, numbers) && needs_itself(alloc, graph, place)? {
        return Ok(Some(Order::Cycle(place)));
    }
    Ok(None)
}
