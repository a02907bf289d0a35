use crate::Inst;

/// A fact in which the records and the cloud differ.
#[derive(Clone, Copy, Debug, PartialEq, Eq)]
pub enum What {
    Spec,
    Running,
    Drained,
    /// What is attached and mounted.
    Disks,
}

/// A difference between the records of a deployment and the cloud.
#[derive(Drop)]
pub enum Problem {
    /// The answer of a call is not known.
    InDoubt { inst: Inst, n: u64 },
    MissingVm { inst: Inst, vm: u64 },
    SilentAgent { inst: Inst, vm: u64 },
    /// The instance owns a machine that is not recorded.
    OtherVm { inst: Inst, vm: u64 },
    Facts { inst: Inst, what: What },
    MissingDisk { inst: Inst, disk: u64 },
    /// An instance owns a disk that is recorded nowhere.
    LooseDisk { disk: u64 },
}
