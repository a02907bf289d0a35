ghost use Rattle.std.specs.Prelude.{◌≡◌};
ghost use Rattle.std.specs.Option.{option_copied};

use bosh_base::{DiskRow, Method};

/// What is to be done next for an instance.
#[derive(Clone, Copy, Debug, PartialEq, Eq)]
pub struct Step {
    pub method: Method,
    /// The disk that is attached, detached, mounted or unmounted, or that a migration is to; by number.
    pub disk: Option<u64>,
}

impl Step {
    ghost use Rattle.bosh_rows.specs.NextStep.{plain, with_disk, on};

    /// A step that names no disk.
    pub(crate) fn plain(method: Method) -> Step
        ensures { result ≡ plain method }
    {
        Step { method, disk: None }
    }

    /// A step on a disk.
    pub(crate) fn with_disk(method: Method, disk: &DiskRow) -> Step
        ensures { result ≡ with_disk method disk.now }
    {
        Step {
            method,
            disk: Some(disk.disk),
        }
    }

    /// A step on a disk, where there is one.
    pub(crate) fn on(method: Method, disk: Option<&DiskRow>) -> Option<Step>
        ensures { result ≡ on method (option_copied disk.entry) }
    {
        match disk {
            Some(disk) => Some(Step::with_disk(method, disk)),
            None => None,
        }
    }
}
