ghost use Rattle.std.specs.Prelude.{◌≡◌, ◌≢◌, ◌↔◌, ◌<◌, length, take, IsTrue, All, count_by};
ghost use Rattle.bosh_roll.specs.declared.upd.Upd.TheVariants.{Finished, Failed};
ghost use Rattle.bosh_roll.specs.GroupRoll.{MayBegin};
ghost use Rattle.bosh_roll.specs.Upd.{is_busy};

use crate::Upd;
use bosh_base::Seq;

/// The update of a group.
#[derive(Debug, Drop)]
pub struct GroupRoll {
    /// How many of the instances are updated before all others.
    pub canaries: u32,
    /// How many are updated at the same time, canaries too.
    pub limit: u32,
    /// The instances that change, in order: the first of them are the canaries.
    pub states: Seq<Upd>,
}

fn none_failed(states: &[Upd]) -> bool
    ensures { IsTrue result ↔ All (λ state. state ≢ Failed) states.now }
{
    states.iter().all(|state| *state != Upd::Failed)
}

fn busy_count(states: &[Upd]) -> usize
    ensures { result ≡ count_by is_busy states.now }
{
    states.iter().filter(|state| **state == Upd::Busy).count()
}

fn all_finished(states: &[Upd]) -> bool
    ensures { IsTrue result ↔ All (λ state. state ≡ Finished) states.now }
{
    states.iter().all(|state| *state == Upd::Finished)
}

fn canaries(roll: &GroupRoll) -> &[Upd]
    ensures { result.now ≡ take roll.now.canaries roll.now.states }
{
    let states = roll.states.as_slice();
    let count = states.len().min(roll.canaries as usize);
    &states[..count]
}

/// Whether the update of the instance at a place, counted from 0, may begin now.
pub fn may_begin(roll: &GroupRoll, k: usize) -> bool
    requires { k < length roll.now.states }
    ensures { IsTrue result ↔ MayBegin roll.now k }
{
    let states = roll.states.as_slice();
    states[k] == Upd::Todo
        && none_failed(states)
        && busy_count(states) < roll.limit as usize
        && (k < roll.canaries as usize || all_finished(canaries(roll)))
}
