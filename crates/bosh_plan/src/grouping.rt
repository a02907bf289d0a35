ghost use Rattle.std.specs.Prelude.{◌≡◌, ◌++◌, [], ◌∷◌, IfOk, OnOk, fold, map};
ghost use Rattle.std.specs.List.{enumerate_from, position};
ghost use Rattle.std.specs.Option.{option_copied};
ghost use Rattle.bosh_plan.specs.Grouping.{first_inst, groups_by, is_group_of, new_group, plan_for, plan_in, planned, rolling_by};
ghost use Rattle.bosh_plan.specs.Grouping.{stage_of, with_member, with_place};

use bosh_base::{Goal, GroupPlan, Inst, Seq, TaskKind, TaskOpen};
use bosh_drops::beside;
use bosh_progress::Rolling;
use bosh_records::RecordsFault;
use bosh_work::{GroupWork, Groups};
use std::alloc::Global;

/// The changed instances of a task by their groups, in the order of the first of each.
pub(crate) fn grouped(alloc: Global, opening: &TaskOpen) -> Result<Groups, RecordsFault>
    ensures { IfOk result (λ groups. groups ≡ groups_by opening.now) }
{
    let members = members(alloc, opening.changed.as_slice())?;
    plan_all(alloc, opening, members)
}

fn members(alloc: Global, changed: &[Inst]) -> Result<Vec<GroupWork>, RecordsFault>
    ensures { IfOk result (λ groups. groups.items ≡ fold (with_member changed.now) [] (enumerate_from 0 changed.now)) }
{
    let mut groups = Vec::new(alloc);
    for (place, inst) in changed.iter().enumerate() {
        add(alloc, &mut groups, changed, place, inst)?;
    }
    Ok(groups)
}

fn add(
    alloc: Global,
    groups: &mut Vec<GroupWork>,
    changed: &[Inst],
    place: usize,
    inst: &Inst,
) -> Result<(), RecordsFault>
    ensures { OnOk result (groups.new.items ≡ with_member changed.now groups.old.items (place, inst.now)) }
{
    match group_of(groups.as_slice(), changed, inst) {
        Some(at) => add_to(groups, at, place),
        None => Ok(groups.push(first_of(alloc, place)?)?),
    }
}

fn group_of(groups: &[GroupWork], changed: &[Inst], inst: &Inst) -> Option<usize>
    ensures { result ≡ position (is_group_of changed.now inst.now) groups.now }
{
    groups.iter().position(|group| is_of(group, changed, inst))
}

fn add_to(groups: &mut Vec<GroupWork>, at: usize, place: usize) -> Result<(), RecordsFault>
    ensures { OnOk result (groups.new.items ≡ with_place groups.old.items at place) }
{
    match groups.get_mut(at) {
        Some(group) => add_place(&mut group.places, place),
        None => Ok(()),
    }
}

fn add_place(places: &mut Seq<usize>, place: usize) -> Result<(), RecordsFault>
    ensures { OnOk result (places.new ≡ places.old ++ place ∷ []) }
{
    match places.push(place) {
        Ok(()) => Ok(()),
        Err(_) => Err(RecordsFault::Memory),
    }
}

fn first_of(alloc: Global, place: usize) -> Result<GroupWork, RecordsFault>
    ensures { IfOk result (λ group. group ≡ new_group place) }
{
    let mut places = Seq::new(alloc);
    add_place(&mut places, place)?;
    Ok(GroupWork {
        stage: 0,
        places,
        roll: Rolling::empty(),
    })
}

fn first<'a>(group: &GroupWork, changed: &'a [Inst]) -> Option<&'a Inst>
    ensures { option_copied result ≡ first_inst changed.now group.now }
{
    changed.get(*group.places.get(0)?)
}

fn is_of(group: &GroupWork, changed: &[Inst], inst: &Inst) -> bool
    ensures { result ≡ is_group_of changed.now inst.now group.now }
{
    match first(group, changed) {
        Some(other) => other.group == inst.group,
        None => false,
    }
}

// Each group with its stage, and how many of it change at a time.
fn plan_all(
    alloc: Global,
    opening: &TaskOpen,
    members: Vec<GroupWork>,
) -> Result<Groups, RecordsFault>
    ensures { IfOk result (λ groups. groups ≡ map (planned opening.now) members.items) }
{
    let mut groups = Vec::new(alloc);
    for group in members {
        groups.push(plan(alloc, opening, group)?)?;
    }
    Ok(Groups::of(groups))
}

fn plan(alloc: Global, opening: &TaskOpen, group: GroupWork) -> Result<GroupWork, RecordsFault>
    ensures { IfOk result (λ it. it ≡ planned opening.now group) }
{
    let plan = plan_for(opening, &group);
    let stage = stage_of(plan);
    let roll = rolling(alloc, opening, plan, group.places.len());
    let (group, roll) = beside(group, roll)?;
    Ok(with_plan(group, stage, roll))
}

fn with_plan(group: GroupWork, stage: u32, roll: Rolling) -> GroupWork
    ensures { result ≡ record group { stage = stage; roll = roll } }
{
    let GroupWork {
        stage: _,
        places,
        roll: _,
    } = group;
    GroupWork {
        stage,
        places,
        roll,
    }
}

fn plan_for<'a>(opening: &'a TaskOpen, group: &GroupWork) -> Option<&'a GroupPlan>
    ensures { option_copied result ≡ plan_for opening.now group.now }
{
    let inst = first(group, opening.changed.as_slice())?;
    plan_in(opening.goal.as_ref()?, inst)
}

fn plan_in<'a>(goal: &'a Goal, inst: &Inst) -> Option<&'a GroupPlan>
    ensures { option_copied result ≡ plan_in goal.now inst.now }
{
    goal.groups.iter().find(|plan| plan.name == inst.group)
}

fn stage_of(plan: Option<&GroupPlan>) -> u32
    ensures { result ≡ stage_of (option_copied plan.entry) }
{
    match plan {
        Some(plan) => plan.stage,
        None => 0,
    }
}

// A task of one instance has no canaries and a limit of 1.
fn rolling(
    alloc: Global,
    opening: &TaskOpen,
    plan: Option<&GroupPlan>,
    len: usize,
) -> Result<Rolling, RecordsFault>
    ensures { IfOk result (λ roll. roll ≡ rolling_by opening.now.kind (option_copied plan.entry) len) }
{
    let (canaries, limit) = match (&opening.kind, plan) {
        (
            TaskKind::Recreate(_) | TaskKind::Start(_) | TaskKind::Stop(_) | TaskKind::Resolve(_),
            _,
        ) => (0, 1),
        (_, Some(plan)) => (plan.canaries as usize, plan.limit as usize),
        (_, None) => (0, 0),
    };
    Ok(Rolling::new(alloc, canaries, limit, len)?)
}
