ghost use Rattle.std.specs.Prelude.{◌≡◌};
ghost use Rattle.bosh_lines.specs.Tasks.{is_refused_on_a_halted_site, opens_task};

use crate::{Lost, Others, Variable, When};
use bosh_base::{Inst, Method, Name, Owner, Seq, Stemcell, Text};
use bosh_fates::{Doom, Fate};

/// What a line asks for.
#[derive(Drop)]
pub enum Command {
    /// Keeps the lines that follow as the file of this path.
    File {
        path: Text,
    },
    /// Uploads the release of a folder under a version.
    UploadRelease {
        folder: Text,
        version: Text,
    },
    UploadStemcell(Stemcell),
    /// Sets the cloud config that the file of this path is.
    UpdateCloudConfig {
        path: Text,
    },
    Deploy(Deploy),
    /// Lists the instances of a deployment.
    Instances {
        dep: Name,
    },
    Recreate(Inst),
    Start(Inst),
    Stop {
        inst: Inst,
        /// Whether its machine is deleted too.
        hard: bool,
    },
    DeleteDeployment {
        dep: Name,
    },
    /// Lists where the records of a deployment and the cloud differ.
    CloudCheck {
        dep: Name,
    },
    /// Makes an instance agree with its records again.
    Resolve(Inst),
    /// Lists the orphaned disks.
    OrphanedDisks,
    DeleteDisk {
        disk: u64,
    },
    /// Deletes all orphaned disks.
    CleanUp,
    /// Lists the tasks.
    Tasks,
    /// Shows one task.
    Task {
        task: u64,
    },
    /// Lists the releases.
    Releases,
    /// Lists the compiled packages.
    Compiled,
    /// Carries the next commands out at once.
    Together {
        count: u64,
    },
    /// Lets a call fail.
    FailCall(Doom),
    /// Lets an append to the director's store fail, with or without its effect.
    FailStore {
        fate: Fate,
        /// How many appends from now on it is: 1 is the next one.
        appends: u64,
    },
    /// Stops the director at a call.
    StopCall(StopCall),
    /// Stops the director at an append to its store.
    StopStore {
        when: When,
        /// How many appends from now on it is: 1 is the next one.
        appends: u64,
    },
    /// Starts the director again.
    Restart,
    /// Lets a job of an instance write to its disk.
    Write {
        inst: Inst,
        text: Text,
    },
    /// Shows what an instance's disk has.
    Read(Inst),
    /// Shows a file of an instance's machine.
    Show {
        inst: Inst,
        path: Text,
    },
    /// Lets an instance's machine vanish, or its agent fall silent.
    Lose {
        inst: Inst,
        lost: Lost,
    },
    /// Lists the machines and disks of the cloud.
    Cloud,
    /// Deploys a large deployment that is made from a number.
    Generate {
        instances: u64,
    },
}

impl Command {
    /// Whether it opens a task, so that it may be carried out together with others.
    pub fn opens_task(&self) -> bool
        ensures { result ≡ opens_task self.now }
    {
        matches!(
            self,
            Command::Deploy(_)
                | Command::Recreate(_)
                | Command::Start(_)
                | Command::Stop { .. }
                | Command::DeleteDeployment { .. }
                | Command::Resolve(_)
                | Command::DeleteDisk { .. }
                | Command::CleanUp
        )
    }

    /// Whether it is refused as a whole while the site is halted. `Generate` is none of these: each of the commands that it
    /// stands for is.
    pub fn is_refused_on_a_halted_site(&self) -> bool
        ensures { result ≡ is_refused_on_a_halted_site self.now }
    {
        !matches!(
            self,
            Command::File { .. }
                | Command::FailCall(_)
                | Command::FailStore { .. }
                | Command::StopCall(_)
                | Command::StopStore { .. }
                | Command::Together { .. }
                | Command::Restart
                | Command::Generate { .. }
        )
    }
}

/// Brings a deployment to the state that a manifest writes.
#[derive(Drop)]
pub struct Deploy {
    pub dep: Name,
    /// The path of the manifest.
    pub path: Text,
    /// In the order of the line, which may give several for one name.
    pub vars: Seq<Variable>,
    /// Whether machines that stand are created anew.
    pub recreate: bool,
    /// Whether machines that are lost are looked for first.
    pub fix: bool,
}

/// A stop of the director at a call.
#[derive(Drop)]
pub struct StopCall {
    pub when: When,
    pub method: Method,
    /// Whose calls are meant, or everybody's.
    pub owner: Option<Owner>,
    /// How many matching calls from now on it is: 1 is the next one.
    pub calls: u64,
    pub others: Others,
}
