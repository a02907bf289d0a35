ghost use Rattle.std.specs.Prelude.{◌≡◌, [], ◌∷◌, ℕ, false, nat_eq, IfNone, IfSome, List, not};
ghost use Rattle.std.specs.Cmp.Lexicographic.{pointwise};
ghost use Rattle.std.specs.List.{list_all, list_any};
ghost use Rattle.std.specs.Option.{option_copied, option_map_or};
ghost use Rattle.bosh_base.specs.declared.inst.Inst.{Inst};
ghost use Rattle.bosh_rows.specs.Same.{same_inst};
ghost use Rattle.bosh_rows.specs.SoundSnapshot.{has_lock};
ghost use Rattle.bosh_records.specs.Kinds.{deploys};
ghost use Rattle.bosh_claim.specs.Opening.{changed_in, changes, cleans_up, deletes, deletes_disk, does_its_kind};
ghost use Rattle.bosh_claim.specs.Opening.{does_not_stand, has_disks_alone, has_named, is_fix, is_free, is_in};
ghost use Rattle.bosh_claim.specs.Opening.{is_obsolete, is_of, is_offered_still, keeps, named_instance};
ghost use Rattle.bosh_claim.specs.Opening.{names_what_is_there, obsolete_in, opens, opens_with, orphaned_in};
ghost use Rattle.bosh_claim.specs.Opening.{same_dep, withdraws_nothing};

use crate::number::is_next;
use bosh_base::{
    DepRow, Goal, GoalRow, Inst, Name, Offer, State, TaskKind, TaskOpen, TaskRow, Tie,
};
use bosh_records::{Instance, Records};
use bosh_rows::stands;

/// Whether a task may open: it has the next number, no open task has its lock, and what it is to do is what its kind
/// does over what is recorded. A deploy that older entries tell of has no digest of its manifest.
pub(crate) fn opens(records: &Records, opening: &TaskOpen) -> bool
    ensures { result ≡ opens records.now opening.now }
{
    is_next(opening.task, records.tasks_opened())
        && is_free(records, opening.dep.as_ref())
        && (deploys(&opening.kind) || opening.source.is_none())
        && does_its_kind(records, opening)
}

// What the task is to do is what its kind does.
fn does_its_kind(records: &Records, opening: &TaskOpen) -> bool
    ensures { result ≡ does_its_kind records.now opening.now opening.now.kind opening.now.goal }
{
    match (&opening.kind, &opening.goal) {
        (TaskKind::CleanUp, None) => cleans_up(records, opening),
        (TaskKind::DeleteDisk(disk), None) => deletes_disk(records, opening, *disk),
        (TaskKind::CleanUp | TaskKind::DeleteDisk(_), Some(_)) => false,
        (_, Some(goal)) => opens_with(records, opening, goal),
        (_, None) => false,
    }
}

// No open task has the lock: that of the deployment, or that of the tasks that delete disks.
fn is_free(records: &Records, dep: Option<&Name>) -> bool
    ensures { result ≡ is_free records.now (option_copied dep.entry) }
{
    for (_, row) in records.tasks() {
        if is_held(row.as_ref(), dep) {
            return false;
        }
    }
    true
}

fn is_held(row: Option<&TaskRow>, dep: Option<&Name>) -> bool
    ensures { result ≡ option_map_or (has_lock (option_copied dep.entry)) (option_copied row.entry) false }
{
    match row {
        Some(row) => has_lock(dep, row),
        None => false,
    }
}

/// Whether a task is open, and is of a deployment, or of none.
pub(crate) fn has_lock(dep: Option<&Name>, row: &TaskRow) -> bool
    ensures { result ≡ has_lock (option_copied dep.entry) row.now }
{
    row.end.is_none() && same_dep(row.dep.as_ref(), dep)
}

fn same_dep(one: Option<&Name>, other: Option<&Name>) -> bool
    ensures { result ≡ same_dep (option_copied one.entry) (option_copied other.entry) }
{
    match (one, other) {
        (Some(one), Some(other)) => one == other,
        (None, None) => true,
        _ => false,
    }
}

// The items are this one alone.
fn is_just<T: PartialEq>(items: &[T], item: &T) -> bool
    ensures { result ≡ pointwise T.eq items.now (item.now ∷ []) }
{
    match items {
        [only] => only == item,
        _ => false,
    }
}

fn deploys(kind: &TaskKind) -> bool
    ensures { result ≡ deploys kind.now }
{
    matches!(kind, TaskKind::Deploy | TaskKind::Fix)
}

// The task has no deployment, and changes no instance.
fn has_disks_alone(opening: &TaskOpen) -> bool
    ensures { result ≡ has_disks_alone opening.now }
{
    opening.dep.is_none() && opening.changed.is_empty() && opening.obsolete.is_empty()
}

// All disks that are recorded orphaned are deleted, by number.
fn cleans_up(records: &Records, opening: &TaskOpen) -> bool
    ensures { result ≡ cleans_up records.now opening.now }
{
    has_disks_alone(opening) && are_orphaned(records, opening.disks.as_slice())
}

fn are_orphaned(records: &Records, disks: &[u64]) -> bool
    ensures { result ≡ pointwise nat_eq disks.now (orphaned_in records.now.orphans.places.entries) }
{
    let mut left = disks;
    for (disk, loose) in records.orphans() {
        if loose.is_some() {
            match after_disk(left, *disk) {
                Some(rest) => left = rest,
                None => return false,
            }
        }
    }
    left.is_empty()
}

// What comes after a disk, where it is the first.
fn after_disk(disks: &[u64], disk: u64) -> Option<&[u64]>
    ensures some { IfSome result (λ rest. (others : List ℕ)
        → pointwise nat_eq disks.now (disk ∷ others) ≡ pointwise nat_eq rest.now others) }
    ensures none { IfNone result ((others : List ℕ) → pointwise nat_eq disks.now (disk ∷ others) ≡ false) }
{
    match disks {
        [first, rest @ ..] if *first == disk => Some(rest),
        _ => None,
    }
}

// The disk is the only one, and is recorded orphaned.
fn deletes_disk(records: &Records, opening: &TaskOpen, disk: u64) -> bool
    ensures { result ≡ deletes_disk records.now opening.now disk }
{
    has_disks_alone(opening)
        && is_just(opening.disks.as_slice(), &disk)
        && records.orphan(disk).is_some()
}

// A deploy, a task of one instance, or a deletion of a deployment.
fn opens_with(records: &Records, opening: &TaskOpen, goal: &Goal) -> bool
    ensures { result ≡ opens_with records.now opening.now goal.now }
{
    same_dep(opening.dep.as_ref(), Some(&goal.dep))
        && opening.disks.is_empty()
        && names_what_is_there(records, &opening.kind, goal)
        && changes(records, opening, goal)
        && deletes(records, opening, goal)
        && withdraws_nothing(records, goal)
}

/// The instance that a task of one instance names.
fn named(kind: &TaskKind) -> Option<&Inst>
    ensures { option_copied result ≡ named_instance kind.now }
{
    match kind {
        TaskKind::Recreate(inst)
        | TaskKind::Start(inst)
        | TaskKind::Stop(inst)
        | TaskKind::Resolve(inst) => { Some(inst) }
        _ => None,
    }
}

// A deploy may be of a new deployment, any other task is of a recorded one, and one of an instance is of one that is
// wanted.
fn names_what_is_there(records: &Records, kind: &TaskKind, goal: &Goal) -> bool
    ensures { result ≡ names_what_is_there records.now kind.now goal.now }
{
    if deploys(kind) {
        return true;
    }
    let Some(current) = records.goal_of(&goal.dep) else {
        return false;
    };
    has_named(current, named(kind))
}

fn has_named(current: &Goal, inst: Option<&Inst>) -> bool
    ensures { result ≡ has_named current.now (option_copied inst.entry) }
{
    match inst {
        Some(inst) => is_in(current, inst),
        None => true,
    }
}

fn is_in(goal: &Goal, inst: &Inst) -> bool
    ensures { result ≡ is_in goal.now inst.now }
{
    are_with(goal.rows.as_slice(), inst)
}

fn are_with(wants: &[GoalRow], inst: &Inst) -> bool
    ensures { result ≡ list_any (λ want. same_inst want.inst inst.now) wants.now }
{
    wants.iter().any(|want| want.inst == *inst)
}

// The changed instances are, in the order of the goal, those that do not stand; all of them, where machines are asked
// first; and the named one alone.
fn changes(records: &Records, opening: &TaskOpen, goal: &Goal) -> bool
    ensures { result ≡ changes records.now opening.now goal.now }
{
    match named(&opening.kind) {
        Some(inst) => is_just(opening.changed.as_slice(), inst),
        None => are_changed(
            records,
            is_fix(&opening.kind),
            opening.changed.as_slice(),
            goal,
        ),
    }
}

fn is_fix(kind: &TaskKind) -> bool
    ensures { result ≡ is_fix kind.now }
{
    matches!(kind, TaskKind::Fix)
}

fn are_changed(records: &Records, all: bool, changed: &[Inst], goal: &Goal) -> bool
    ensures { result ≡ pointwise same_inst changed.now (changed_in records.now all goal.now.rows) }
{
    let mut left = changed;
    for want in goal.rows.iter() {
        if all || does_not_stand(records, want) {
            match after(left, &want.inst) {
                Some(rest) => left = rest,
                None => return false,
            }
        }
    }
    left.is_empty()
}

// What comes after an instance, where it is the first.
fn after<'a>(insts: &'a [Inst], inst: &Inst) -> Option<&'a [Inst]>
    ensures some { IfSome result (λ rest. (others : List Inst)
        → pointwise same_inst insts.now (inst.now ∷ others) ≡ pointwise same_inst rest.now others) }
    ensures none { IfNone result ((others : List Inst) → pointwise same_inst insts.now (inst.now ∷ others) ≡ false) }
{
    match insts {
        [first, rest @ ..] if first == inst => Some(rest),
        _ => None,
    }
}

fn does_not_stand(records: &Records, want: &GoalRow) -> bool
    ensures { result ≡ does_not_stand records.now want.now }
{
    match records.row(&want.inst) {
        Some(row) => !stands(Some(want), row),
        None => want.state != State::Detached,
    }
}

// The obsolete instances are the recorded ones of the deployment that the goal has not; a task of one instance deletes
// none.
fn deletes(records: &Records, opening: &TaskOpen, goal: &Goal) -> bool
    ensures { result ≡ deletes records.now opening.now goal.now }
{
    match named(&opening.kind) {
        Some(_) => opening.obsolete.is_empty(),
        None => are_obsolete(records, opening.obsolete.as_slice(), goal),
    }
}

fn are_obsolete(records: &Records, obsolete: &[Inst], goal: &Goal) -> bool
    ensures { result ≡ pointwise same_inst obsolete.now (obsolete_in goal.now records.now.instances.by_inst.entries) }
{
    let mut left = obsolete;
    for (inst, instance) in records.instances() {
        if is_obsolete(goal, inst, instance) {
            match after(left, inst) {
                Some(rest) => left = rest,
                None => return false,
            }
        }
    }
    left.is_empty()
}

fn is_obsolete(goal: &Goal, inst: &Inst, instance: &Instance) -> bool
    ensures { result ≡ is_obsolete goal.now (inst.now, instance.now) }
{
    instance.row.is_some() && inst.dep == goal.dep && !is_in(goal, inst)
}

// No other current goal has a tie to a link that the goal withdraws.
fn withdraws_nothing(records: &Records, goal: &Goal) -> bool
    ensures { result ≡ withdraws_nothing records.now goal.now }
{
    for (_, row) in records.deployments() {
        if withdraws(row.as_ref(), goal) {
            return false;
        }
    }
    true
}

fn withdraws(row: Option<&DepRow>, goal: &Goal) -> bool
    ensures { result ≡ option_map_or (λ it. not (keeps goal.now it)) (option_copied row.entry) false }
{
    match row {
        Some(row) => !keeps(row, goal),
        None => false,
    }
}

fn keeps(row: &DepRow, goal: &Goal) -> bool
    ensures { result ≡ keeps goal.now row.now }
{
    row.dep == goal.dep || are_offered_still(goal, row.goal.ties.as_slice())
}

fn are_offered_still(goal: &Goal, ties: &[Tie]) -> bool
    ensures { result ≡ list_all (is_offered_still goal.now) ties.now }
{
    ties.iter().all(|tie| is_offered_still(goal, tie))
}

fn is_offered_still(goal: &Goal, tie: &Tie) -> bool
    ensures { result ≡ is_offered_still goal.now tie.now }
{
    tie.provider.dep != goal.dep || offers(goal.offers.as_slice(), tie)
}

fn offers(offers: &[Offer], tie: &Tie) -> bool
    ensures { result ≡ list_any (λ offer. is_of offer tie.now) offers.now }
{
    offers.iter().any(|offer| is_of(offer, tie))
}

fn is_of(offer: &Offer, tie: &Tie) -> bool
    ensures { result ≡ is_of offer.now tie.now }
{
    offer.joint == tie.provider && offer.kind == tie.kind
}
