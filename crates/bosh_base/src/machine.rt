use crate::{DiskWant, Make, Name, Owner, Seq, Spec, Text};

/// A machine of the cloud.
#[derive(Drop)]
pub struct Machine {
    /// From 1 on, in the order of creation.
    pub vm: u64,
    /// The number of the call that created it.
    pub agent: u64,
    pub owner: Owner,
    /// The deployment of the task that created it.
    pub dep: Name,
    pub make: Make,
    pub spec: Option<Spec>,
    pub running: bool,
    pub drained: bool,
    /// Disks, by number.
    pub attached: Seq<u64>,
    /// Disks, by number.
    pub mounted: Seq<u64>,
    /// Its agent does not answer.
    pub silent: bool,
}

/// A disk of the cloud.
#[derive(Drop)]
pub struct Disk {
    /// From 1 on, in the order of creation.
    pub disk: u64,
    /// The number of the call that created it.
    pub tag: u64,
    pub owner: Owner,
    pub want: DiskWant,
    pub contents: Text,
}
