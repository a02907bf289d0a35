//! What groups use.
ghost use Rattle.std.specs.Prelude.{◌≡◌, Some, None, IfOk, option_map};
ghost use Rattle.bosh_manifest_names.specs.Disk.{want_of};

use bosh_base::{CopyFault, Copyable, DiskWant, JobSpec, Release, Seq, Stemcell, Text};
use bosh_manifest::Group;
use bosh_manifest_parts::JobUse;
use std::alloc::Global;
use std::marker::Model;

/// A job of a group, with what its release says of it.
#[derive(Drop)]
pub struct UsedJob<'a> {
    job: &'a JobUse,
    release: &'a Release,
    spec: &'a JobSpec,
}

impl<'a> Model for UsedJob<'a> {
    ghost use Rattle.std.specs.Coded.{codes};
    ghost use Rattle.bosh_yaml.specs.Code.{tree_code};
    ghost use Rattle.bosh_manifest_names.specs.Used.{UsedJob};

    ghost Value = { UsedJob };

    ghost coded = { Prim.hlevel (codes, tree_code) };

    ghost view = { λ used. record { job = used.job.now; release = used.release.now; spec = used.spec.now } };
}

impl<'a> UsedJob<'a> {
    pub(crate) fn new(job: &'a JobUse, release: &'a Release, spec: &'a JobSpec) -> UsedJob<'a>
        ensures { result ≡ record { job = job.now; release = release.now; spec = spec.now } }
    {
        UsedJob { job, release, spec }
    }

    /// What the manifest says of the job.
    pub fn job(&self) -> &'a JobUse
        ensures { result.now ≡ self.now.job }
    {
        self.job
    }

    /// The release that has the job.
    pub fn release(&self) -> &'a Release
        ensures { result.now ≡ self.now.release }
    {
        self.release
    }

    /// What the release says of the job.
    pub fn spec(&self) -> &'a JobSpec
        ensures { result.now ≡ self.now.spec }
    {
        self.spec
    }
}

/// The persistent disk that the instances of a group are to have.
#[derive(Clone, Copy)]
pub(crate) enum UsedDisk<'a> {
    /// One of a size in MB, without cloud properties.
    Size(u32),
    /// One of a type of the cloud config.
    Typed(&'a DiskWant),
}

fn want_of(alloc: Global, disk: UsedDisk<'_>) -> Result<DiskWant, CopyFault>
    ensures { IfOk result (λ want. want ≡ want_of disk.entry) }
{
    match disk {
        UsedDisk::Size(size) => Ok(DiskWant {
            size,
            properties: Text::from(Vec::from_slice(alloc, b"null".as_slice())?),
        }),
        UsedDisk::Typed(want) => want.copy(alloc),
    }
}

/// A group, with what it names.
#[derive(Drop)]
pub struct UsedGroup<'a> {
    group: &'a Group,
    stemcell: &'a Stemcell,
    machine: &'a Text,
    disk: Option<UsedDisk<'a>>,
    jobs: Seq<UsedJob<'a>>,
}

impl<'a> Model for UsedGroup<'a> {
    ghost use Rattle.std.specs.Option.{option_map};
    ghost use Rattle.std.specs.Coded.{codes};
    ghost use Rattle.bosh_yaml.specs.Code.{tree_code};
    ghost use Rattle.bosh_manifest_names.specs.Used.{UsedGroup};
    ghost use Rattle.bosh_manifest_names.specs.Disk.{want_of};

    ghost Value = { UsedGroup };

    ghost coded = { Prim.hlevel (codes, tree_code) };

    ghost view = { λ used. record {
      group = used.group.now;
      stemcell = used.stemcell.now;
      machine = used.machine.now;
      disk = option_map want_of used.disk;
      jobs = used.jobs;
    } };
}

impl<'a> UsedGroup<'a> {
    pub(crate) fn new(
        group: &'a Group,
        stemcell: &'a Stemcell,
        machine: &'a Text,
        disk: Option<UsedDisk<'a>>,
        jobs: Seq<UsedJob<'a>>,
    ) -> UsedGroup<'a>
        ensures { result ≡ record {
          group = group.now;
          stemcell = stemcell.now;
          machine = machine.now;
          disk = option_map want_of disk.entry;
          jobs = jobs.entry;
        } }
    {
        UsedGroup {
            group,
            stemcell,
            machine,
            disk,
            jobs,
        }
    }

    /// What the manifest says of the group.
    pub fn group(&self) -> &'a Group
        ensures { result.now ≡ self.now.group }
    {
        self.group
    }

    pub fn stemcell(&self) -> &'a Stemcell
        ensures { result.now ≡ self.now.stemcell }
    {
        self.stemcell
    }

    /// The cloud properties of its machines.
    pub fn machine(&self) -> &'a Text
        ensures { result.now ≡ self.now.machine }
    {
        self.machine
    }

    /// A disk of each instance, where they have one.
    pub fn disk(&self, alloc: Global) -> Result<Option<DiskWant>, CopyFault>
        ensures { IfOk result (λ disk. disk ≡ self.now.disk) }
    {
        match self.disk {
            None => Ok(None),
            Some(disk) => Ok(Some(want_of(alloc, disk)?)),
        }
    }

    pub fn jobs(&self) -> &[UsedJob<'a>]
        ensures { result.now ≡ self.now.jobs }
    {
        self.jobs.as_slice()
    }
}
