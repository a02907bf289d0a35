//! The disks of an instance, as they are recorded.
ghost use Rattle.std.specs.Prelude.{◌≡◌, if◌then◌else◌, Some};
ghost use Rattle.std.specs.List.{list_all};
ghost use Rattle.std.specs.Option.{option_copied};
ghost use Rattle.bosh_rows.specs.Disks.{is_active, is_right, is_spare_beside, active, coming, lesser};

use bosh_base::{DiskRow, DiskWant, Role};

pub(crate) fn is_active(disk: &DiskRow) -> bool
    ensures { result ≡ is_active disk.now }
{
    matches!(disk.role, Role::Active)
}

/// Whether a disk has the size and the properties that are wanted.
pub(crate) fn is_right(wanted: &DiskWant, disk: &DiskRow) -> bool
    ensures { result ≡ is_right wanted.now disk.now }
{
    disk.want == *wanted
}

/// The disk that holds the contents.
pub(crate) fn active(disks: &[DiskRow]) -> Option<&DiskRow>
    ensures { option_copied result ≡ active disks.now }
{
    disks.iter().find(|disk| is_active(disk))
}

pub(crate) fn are_active(disks: &[DiskRow]) -> bool
    ensures { result ≡ list_all is_active disks.now }
{
    disks.iter().all(|disk| is_active(disk))
}

/// The one with the lesser number, where the second counts.
pub(crate) fn lesser_if<'a>(
    counts: bool,
    least: Option<&'a DiskRow>,
    disk: &'a DiskRow,
) -> Option<&'a DiskRow>
    ensures { let before = option_copied least.entry in
        option_copied result ≡ (if counts then lesser before disk.now else before) }
{
    match least {
        None if counts => Some(disk),
        Some(least) if counts && disk.disk < least.disk => Some(disk),
        _ => least,
    }
}

/// The new disk that is to take the place of the active one, while that is not as it is wanted.
pub(crate) fn coming<'a>(wanted: &DiskWant, disks: &'a [DiskRow]) -> Option<&'a DiskRow>
    ensures { option_copied result ≡ coming (Some wanted.now) disks.now }
{
    if let Some(active) = active(disks)
        && is_right(wanted, active)
    {
        return None;
    }
    let mut least = None;
    for disk in disks {
        least = lesser_if(
            matches!(disk.role, Role::New) && is_right(wanted, disk),
            least,
            disk,
        );
    }
    least
}

/// Whether a disk is old, or new and another than the one that takes the place of the active one.
pub(crate) fn is_spare_beside(coming: Option<&DiskRow>, disk: &DiskRow) -> bool
    ensures { result ≡ is_spare_beside (option_copied coming.entry) disk.now }
{
    match disk.role {
        Role::Active => false,
        Role::Old => true,
        Role::New => match coming {
            Some(coming) => coming.disk != disk.disk,
            None => true,
        },
    }
}
