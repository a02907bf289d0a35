//! Disks of a deployment that are recorded nowhere.
ghost use Rattle.std.specs.Prelude.{◌≡◌, ◌∷◌, ◌++◌, [], OnOk};
ghost use Rattle.bosh_cck.specs.Loose.{is_loose_beside, is_of};
ghost use Rattle.bosh_cck.specs.Problems.{loose_among};
ghost use Rattle.bosh_cck.specs.Tables.{all_there, has};

use crate::CckFault;
use crate::numbers::Numbers;
use bosh_base::{Disk, Name, Owner, Problem};

fn is_of(dep: &Name, owner: &Owner) -> bool
    ensures { result ≡ is_of dep.now owner.now }
{
    match owner {
        Owner::Instance(inst) => inst.dep == *dep,
        Owner::Compile(_, _) | Owner::Disk(_) => false,
    }
}

fn is_loose(dep: &Name, recorded: &Numbers, doubted: &Numbers, disk: &Disk) -> bool
    ensures { result ≡ is_loose_beside dep.now (has recorded.now) (has doubted.now) disk.now }
{
    is_of(dep, &disk.owner) && !recorded.contains(&disk.disk) && !doubted.contains(&disk.tag)
}

// Adds the disk of a slot, where it is loose.
fn add_slot(
    dep: &Name,
    recorded: &Numbers,
    doubted: &Numbers,
    slot: &Option<Disk>,
    problems: &mut Vec<Problem>,
) -> Result<(), CckFault>
    ensures { OnOk result (problems.new.items ≡ problems.old.items
        ++ loose_among (is_loose_beside dep.now (has recorded.now) (has doubted.now)) (all_there (slot.now ∷ []))) }
{
    match slot {
        Some(disk) if is_loose(dep, recorded, doubted, disk) => {
            problems.push(Problem::LooseDisk { disk: disk.disk })?;
            Ok(())
        }
        _ => Ok(()),
    }
}

/// Adds each loose disk of those that stand in slots.
pub(crate) fn add_loose(
    dep: &Name,
    recorded: &Numbers,
    doubted: &Numbers,
    slots: &[Option<Disk>],
    problems: &mut Vec<Problem>,
) -> Result<(), CckFault>
    ensures { OnOk result (problems.new.items ≡ problems.old.items
        ++ loose_among (is_loose_beside dep.now (has recorded.now) (has doubted.now)) (all_there slots.now)) }
{
    for slot in slots {
        add_slot(dep, recorded, doubted, slot, problems)?;
    }
    Ok(())
}
