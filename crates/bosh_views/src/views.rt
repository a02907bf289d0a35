ghost use Rattle.std.specs.Prelude.{◌≡◌, ◌++◌, None, IfOk, OnOk, true};
ghost use Rattle.std.specs.Option.{option_copied, option_map};
ghost use Rattle.bosh_views.specs.View.{held_by_goal, held_by_machines, held_by_rows, held_by_slots, held_by_task};
ghost use Rattle.bosh_views.specs.View.{held_of, is_offered, known_of, known_offers, make_of, open_goal, other_of};
ghost use Rattle.bosh_views.specs.View.{rows_of, taken_of, view_of};

use bosh_base::{
    Copyable, DepOffers, DepRow, Goal, Held, Make, Name, Offer, Owner, Row, Seq, TaskRow, View,
};
use bosh_drops::put;
use bosh_records::{Records, RecordsFault};
use std::alloc::Global;

/// What the goal of a deployment depends on beside its manifest.
pub fn view(records: &Records, dep: &Name) -> Result<View, RecordsFault>
    ensures { IfOk result (λ view. view ≡ view_of records.now dep.now) }
{
    let mut view = nothing(records.alloc);
    look(records, dep, &mut view)?;
    Ok(view)
}

fn look(records: &Records, dep: &Name, view: &mut View) -> Result<(), RecordsFault>
    requires { view.old.goal ≡ None }
    ensures { OnOk result (view.new ≡ view_of records.now dep.now) }
{
    if let Some(goal) = records.goal_of(dep) {
        put(&mut view.goal, Some(goal.copy(records.alloc)?));
    }
    put(&mut view.rows, Seq::from(rows_of(records, dep)?));
    put(&mut view.taken, Seq::from(taken(records, dep)?));
    put(&mut view.leftover, Seq::from(leftover(records, dep)?));
    put(&mut view.compiled, records.keys.compiled(records.alloc)?);
    view.last_call = records.last_call;
    put(&mut view.known, Seq::from(known(records)?));
    Ok(())
}

fn rows_of(records: &Records, dep: &Name) -> Result<Vec<Row>, RecordsFault>
    ensures { IfOk result (λ rows. rows.items ≡ rows_of dep.now records.now.instances.by_inst.entries) }
{
    let mut rows = Vec::new(records.alloc);
    for (inst, instance) in records.instances.iter() {
        if let (true, Some(row)) = (inst.dep == *dep, &instance.row) {
            rows.push(row.copy(records.alloc)?)?;
        }
    }
    Ok(rows)
}

// The addresses that other deployments hold: those of their rows, of the rows of their goals, of their compile
// machines, and of the slots of their open tasks.
fn taken(records: &Records, dep: &Name) -> Result<Vec<Held>, RecordsFault>
    ensures { IfOk result (λ held. held.items ≡ taken_of records.now dep.now) }
{
    let mut held = Vec::new(records.alloc);
    hold_rows(records, dep, &mut held)?;
    for (_, row) in records.deployments.iter() {
        if let Some(row) = other(row.as_ref(), dep) {
            hold_goal(records.alloc, &row.goal, &mut held)?;
        }
    }
    hold_machines(records, dep, false, &mut held)?;
    for (_, row) in records.tasks.iter() {
        hold_slots(records, dep, row.as_ref(), &mut held)?;
    }
    Ok(held)
}

fn hold_rows(records: &Records, dep: &Name, held: &mut Vec<Held>) -> Result<(), RecordsFault>
    ensures { OnOk result (held.new.items
        ≡ held.old.items ++ held_by_rows dep.now records.now.instances.by_inst.entries) }
{
    for (inst, instance) in records.instances.iter() {
        if let (false, Some(make)) = (inst.dep == *dep, make_of(instance.row.as_ref())) {
            let owner = Owner::Instance(inst.copy(records.alloc)?);
            hold(records.alloc, &owner, make, held)?;
        }
    }
    Ok(())
}

// Those of the compile machines of a deployment, or of all others.
fn hold_machines(
    records: &Records,
    dep: &Name,
    own: bool,
    held: &mut Vec<Held>,
) -> Result<(), RecordsFault>
    ensures { OnOk result (held.new.items
        ≡ held.old.items ++ held_by_machines dep.now own records.now.machines.places.entries) }
{
    for (name, machine) in records.machines.iter() {
        if let Some(machine) = machine {
            if (machine.row.dep == *dep) == own {
                let owner = Owner::Compile(name.task, name.slot);
                hold(records.alloc, &owner, &machine.row.make, held)?;
            }
        }
    }
    Ok(())
}

fn hold_slots(
    records: &Records,
    dep: &Name,
    row: Option<&TaskRow>,
    held: &mut Vec<Held>,
) -> Result<(), RecordsFault>
    ensures { OnOk result (held.new.items
        ≡ held.old.items ++ held_by_task records.now dep.now (option_copied row.entry)) }
{
    match open_goal(records, dep, row) {
        Some((task, goal)) => hold_makes(records.alloc, task, goal, held),
        None => Ok(()),
    }
}

// The goal of an open task of another deployment.
fn open_goal<'a>(records: &'a Records, dep: &Name, row: Option<&TaskRow>) -> Option<(u64, &'a Goal)>
    ensures { option_map (λ it. (it.0, it.1.now)) result ≡ open_goal records.now dep.now (option_copied row.entry) }
{
    let row = row?;
    let other = row.dep.as_ref()?;
    if row.end.is_some() || other == dep {
        return None;
    }
    Some((row.task, records.goal_of(other)?))
}

fn leftover(records: &Records, dep: &Name) -> Result<Vec<Held>, RecordsFault>
    ensures { IfOk result (λ held. held.items ≡ held_by_machines dep.now true records.now.machines.places.entries) }
{
    let mut held = Vec::new(records.alloc);
    hold_machines(records, dep, true, &mut held)?;
    Ok(held)
}

fn known(records: &Records) -> Result<Vec<DepOffers>, RecordsFault>
    ensures { IfOk result (λ known. known.items ≡ known_of records.now.deployments.places.entries) }
{
    let mut known = Vec::new(records.alloc);
    for (_, row) in records.deployments.iter() {
        if let Some(row) = row {
            known.push(known_offers(records.alloc, row)?)?;
        }
    }
    Ok(known)
}

fn nothing(alloc: Global) -> View
    ensures { result.goal ≡ None }
{
    View {
        goal: None,
        rows: Seq::new(alloc),
        taken: Seq::new(alloc),
        leftover: Seq::new(alloc),
        compiled: Seq::new(alloc),
        last_call: 0,
        known: Seq::new(alloc),
    }
}

fn make_of(row: Option<&Row>) -> Option<&Make>
    ensures { option_copied result ≡ make_of (option_copied row.entry) }
{
    row?.make.as_ref()
}

fn other<'a>(row: Option<&'a DepRow>, dep: &Name) -> Option<&'a DepRow>
    ensures { option_copied result ≡ other_of dep.now (option_copied row.entry) }
{
    match row {
        Some(row) if row.dep != *dep => Some(row),
        _ => None,
    }
}

fn hold_goal(alloc: Global, goal: &Goal, held: &mut Vec<Held>) -> Result<(), RecordsFault>
    ensures { OnOk result (held.new.items ≡ held.old.items ++ held_by_goal goal.now) }
{
    for want in goal.rows.iter() {
        let owner = Owner::Instance(want.inst.copy(alloc)?);
        hold(alloc, &owner, &want.make, held)?;
    }
    Ok(())
}

// Those of the slots of a task.
fn hold_makes(
    alloc: Global,
    task: u64,
    goal: &Goal,
    held: &mut Vec<Held>,
) -> Result<(), RecordsFault>
    ensures { OnOk result (held.new.items ≡ held.old.items ++ held_by_slots task 0 goal.now.slots) }
{
    let mut slot = 0u32;
    for make in goal.slots.iter() {
        hold(alloc, &Owner::Compile(task, slot), make, held)?;
        slot = slot.saturating_add(1);
    }
    Ok(())
}

fn hold(alloc: Global, owner: &Owner, make: &Make, held: &mut Vec<Held>) -> Result<(), RecordsFault>
    ensures { OnOk result (held.new.items ≡ held.old.items ++ held_of owner.now make.now) }
{
    for it in make.nets.iter() {
        let net = it.net.copy(alloc)?;
        let owner = owner.copy(alloc)?;
        held.push(Held {
            owner,
            net,
            addr: it.addr,
        })?;
    }
    Ok(())
}

// What others may take of a deployment: what its last done deploy offers, as far as its current goal still does.
fn known_offers(alloc: Global, row: &DepRow) -> Result<DepOffers, RecordsFault>
    ensures { IfOk result (λ known. known ≡ known_offers row.now) }
{
    let mut offers = Vec::new(alloc);
    for offer in row.shared.iter() {
        if is_offered(row.goal.offers.as_slice(), offer) {
            offers.push(offer.copy(alloc)?)?;
        }
    }
    let dep = row.dep.copy(alloc)?;
    Ok(DepOffers {
        dep,
        offers: Seq::from(offers),
    })
}

fn is_offered(offers: &[Offer], offer: &Offer) -> bool
    ensures { result ≡ is_offered offers.now offer.now }
{
    offers
        .iter()
        .any(|it| it.joint == offer.joint && it.kind == offer.kind)
}
