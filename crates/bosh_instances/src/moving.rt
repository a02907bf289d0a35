//! Disks that would have to leave their availability zone.
ghost use Rattle.std.specs.Prelude.{◌≡◌, ◌≤◌, All, IfOk, find, length, option_map, true};
ghost use Rattle.std.specs.List.{list_any};
ghost use Rattle.std.specs.Option.{option_copied};
ghost use Rattle.bosh_instances.specs.Moving.{differs, disks_stay, has_contents, is_active, moved, moved_in, moves, refusal_of, would_move};
ghost use Rattle.bosh_manifest.specs.Sound.{IsSoundGroup};
ghost use Rattle.bosh_wants.specs.Wants.{below};
ghost use Rattle.bosh_wants.specs.Zones.{inst_of, row_of, zone_made};
ghost use Rattle.bosh_manifest_names.specs.Answer.{IsAnswerSeen};

use bosh_base::{CopyFault, Inst, Make, Name, Role, Row, copy_both};
use bosh_manifest::Group;
use bosh_manifest_names::GoalFault;
use bosh_wants::{row_of, zone_of};
use std::alloc::Global;

fn has_contents(row: &Row) -> bool
    ensures { result ≡ has_contents row.now }
{
    row.disks.iter().any(|disk| disk.role == Role::Active)
}

fn differs(az: &Name, made: &Option<Make>) -> bool
    ensures { result ≡ differs az.now (zone_made made.now) }
{
    match made {
        None => false,
        Some(make) => make.az != *az,
    }
}

fn would_move(az: &Name, row: Option<&Row>) -> bool
    ensures { result ≡ would_move az.now (option_copied row.entry) }
{
    match row {
        None => false,
        Some(row) => has_contents(row) && differs(az, &row.make),
    }
}

fn moves(dep: &Name, rows: &[Row], group: &Group, index: u32) -> bool
    requires { 1 ≤ length group.now.azs }
    ensures { result ≡ moves dep.now rows.now group.now index }
{
    would_move(
        zone_of(rows, dep, group, index),
        row_of(rows, dep, group, index),
    )
}

fn first_moved(dep: &Name, rows: &[Row], group: &Group) -> Option<u32>
    requires { 1 ≤ length group.now.azs }
    ensures { result ≡ find (moves dep.now rows.now group.now) (below group.now.instances) }
{
    for index in 0..group.instances {
        if moves(dep, rows, group, index) {
            return Some(index);
        }
    }
    None
}

fn inst_of(alloc: Global, dep: &Name, group: &Group, index: u32) -> Result<Inst, CopyFault>
    ensures { IfOk result (λ inst. inst ≡ inst_of dep.now group.now index) }
{
    let (dep, group) = copy_both(dep, &group.name, alloc)?;
    Ok(Inst { dep, group, index })
}

fn check_group(alloc: Global, dep: &Name, rows: &[Row], group: &Group) -> Result<(), GoalFault>
    requires { 1 ≤ length group.now.azs }
    ensures { IsAnswerSeen (λ _. true) result (refusal_of (moved_in dep.now rows.now group.now)) }
{
    match first_moved(dep, rows, group) {
        None => Ok(()),
        Some(index) => Err(GoalFault::DiskInAz {
            inst: inst_of(alloc, dep, group, index)?,
        }),
    }
}

/// Refuses a goal in which a recorded instance with an active disk would change its availability zone, and names the first
/// such instance, by group and by index.
pub fn check_disks(
    alloc: Global,
    dep: &Name,
    rows: &[Row],
    groups: &[Group],
) -> Result<(), GoalFault>
    requires { All IsSoundGroup groups.now }
    ensures { IsAnswerSeen (λ _. true) result (disks_stay dep.now rows.now groups.now) }
{
    for group in groups {
        check_group(alloc, dep, rows, group)?;
    }
    Ok(())
}
