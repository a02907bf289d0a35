ghost use Rattle.std.specs.Prelude.{◌≡◌, ◌<◌, ◌≤◌, ◌^◌, length, map, All, IfOk};
ghost use Rattle.std.specs.List.{list_any};
ghost use Rattle.bosh_compile.specs.Rounds.{last_level, IsFitting, IsPending, IsNextPending, Advances, AllAdvance};

use crate::CompileFault;
use crate::table::{Node, graph_of};
use bosh_base::{KeyWork, Seq};
use std::alloc::Global;

/// How far the rounds came with a work.
#[derive(Clone, Copy)]
pub(crate) struct Progress {
    pub level: usize,
    /// So many of the keys that the work needs are of works whose levels are found.
    pub met: usize,
}

// The keys of the works that came as far as the round: their levels are not found yet.
fn pending_keys(
    alloc: Global,
    nodes: &[Node],
    progress: &[Progress],
    round: usize,
) -> Result<Vec<bool>, CompileFault>
    requires same_length { length nodes.now ≡ length progress.now }
    requires in_range { All (λ node. node.key < length nodes.now) nodes.now }
    ensures { IfOk result (λ pending. IsPending nodes.now progress.now round pending.items) }
{
    let mut pending = vec![in alloc; false; nodes.len()]?;
    for (place, node) in nodes.iter().enumerate() {
        if progress[place].level == round {
            pending[node.key] = true;
        }
    }
    Ok(pending)
}

fn is_some_pending(pending: &[bool]) -> bool
    ensures { result ≡ list_any (λ is. is) pending.now }
{
    pending.iter().any(|is| *is)
}

// The place of the first pending key from a place on.
fn next_pending(needs: &[usize], pending: &[bool], from: usize) -> usize
    requires in_range { All (λ key. key < length pending.now) needs.now }
    requires from { from ≤ length needs.now }
    ensures { IsNextPending needs.now pending.now from result }
{
    for place in from..needs.len() {
        if pending[needs[place]] {
            return place;
        }
    }
    needs.len()
}

fn advanced(progress: Progress, needs: &[usize], pending: &[bool], round: usize) -> Progress
    requires in_range { All (λ key. key < length pending.now) needs.now }
    requires met { progress.met ≤ length needs.now }
    requires fits { round < 2 ^ 63 }
    ensures { Advances round needs.now pending.now progress result }
{
    if progress.level != round {
        return progress;
    }
    let met = next_pending(needs, pending, progress.met);
    let level = if met < needs.len() { round + 1 } else { round };
    Progress { level, met }
}

fn advance(progress: &mut [Progress], nodes: &[Node], pending: &[bool], round: usize)
    requires same_length { length nodes.now ≡ length progress.old }
    requires fitting { IsFitting nodes.now (length pending.now) progress.old }
    requires fits { round < 2 ^ 63 }
    ensures { AllAdvance round nodes.now pending.now progress.old progress.new }
{
    for (place, node) in nodes.iter().enumerate() {
        progress[place] = advanced(progress[place], node.needs.as_slice(), pending, round);
    }
}

fn levels_in(alloc: Global, progress: &[Progress]) -> Result<Seq<usize>, CompileFault>
    ensures { IfOk result (λ levels. levels ≡ map (λ each. each.level) progress.now) }
{
    let levels: Vec<usize> = progress.iter().map(|each| each.level).collect(alloc)?;
    Ok(Seq::from(levels))
}

/// The level of each work. A round finds the works of one level: those whose needs have all been found before. It goes
/// on with the needs of a work where the last round stopped, so all rounds look at each need once. There are no more rounds
/// than levels, and one.
pub(crate) fn levels_of(alloc: Global, works: &[KeyWork]) -> Result<Seq<usize>, CompileFault>
    ensures { IfOk result (λ levels. levels ≡ map (last_level works.now) works.now) }
{
    let nodes = graph_of(alloc, works)?;
    let start = Progress { level: 0, met: 0 };
    let mut progress = vec![in alloc; start; works.len()]?;
    for round in 0..works.len() {
        let pending = pending_keys(alloc, &nodes, &progress, round)?;
        if !is_some_pending(pending.as_slice()) {
            return levels_in(alloc, progress.as_slice());
        }
        advance(&mut progress, &nodes, &pending, round);
    }
    levels_in(alloc, &progress)
}
