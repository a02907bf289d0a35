use bosh_base::{Digest, Inst, Name};
use bosh_manifest::Manifest;

/// A deployment is to become what a manifest says (bosh.io, "Deploying").
#[derive(Drop)]
pub struct Deploy {
    pub manifest: Manifest,
    /// All its machines are made anew.
    pub recreate: bool,
    /// Each machine is asked first whether it answers.
    pub fix: bool,
    /// The digest of the manifest.
    pub source: Digest,
}

/// What a task is asked to do.
#[derive(Drop)]
pub enum Ask {
    Deploy(Deploy),
    /// The machine of an instance is made anew.
    Recreate(Inst),
    Start(Inst),
    /// An instance stops. A hard stop deletes its machine too.
    Halt { inst: Inst, hard: bool },
    DeleteDeployment(Name),
    /// An orphaned disk is deleted.
    DeleteDisk(u64),
    /// All orphaned disks are deleted.
    CleanUp,
    /// What an instance differs in from its goal is put right.
    Resolve(Inst),
}
