//! What commands are about.
ghost use Rattle.std.specs.Prelude.{◌≡◌};
ghost use Rattle.bosh_answers.specs.Kinds.{kind_of};

use bosh_asks::Ask;
use bosh_base::{Inst, Name, Stemcell, Text};
use bosh_fates::{Doom, Fate};
use bosh_lines::{Command, Deploy, Lost, StopCall, When};

/// What a command is about.
#[derive(Drop)]
pub enum Kind {
    /// The block that follows is kept as the file of this path.
    Keep(Text),
    /// Something is recorded for the tasks that come.
    Upload(Upload),
    /// A task opens that needs no file.
    Open(Ask),
    /// A task opens that deploys the manifest of a file.
    Deploy(Deploy),
    /// What is recorded is listed.
    List(Listing),
    /// It is about a director over a simulated cloud.
    OfSite(SiteCommand),
    /// The session carries it out: it takes others along, or stands for others.
    OfSession,
}

/// What is recorded for the tasks that come.
#[derive(Drop)]
pub enum Upload {
    /// The release of a folder, under a version.
    Release { folder: Text, version: Text },
    Stemcell(Stemcell),
    /// The cloud config that the file of this path is.
    CloudConfig { path: Text },
}

/// A list of what is recorded.
#[derive(Drop)]
pub enum Listing {
    /// The instances of a deployment.
    Instances(Name),
    OrphanedDisks,
    Tasks,
    /// One task, by its number.
    Task(u64),
    Releases,
    /// The compiled packages.
    Compiled,
}

/// A command about a director over a simulated cloud: what is there is looked into and changed from outside, and calls,
/// appends and the director itself fail, stop and start on purpose.
#[derive(Drop)]
pub enum SiteCommand {
    /// The records of a deployment are compared with the cloud.
    CloudCheck(Name),
    /// The machines and disks of the cloud are listed.
    Cloud,
    /// A job of an instance writes to its disk.
    Write { inst: Inst, text: Text },
    /// What an instance's disk has is shown.
    Read(Inst),
    /// A file of an instance's machine is shown.
    Show { inst: Inst, path: Text },
    /// An instance's machine vanishes, or its agent falls silent.
    Lose { inst: Inst, lost: Lost },
    /// A call fails.
    FailCall(Doom),
    /// The append of this number, from 1 on, to the director's store fails, with or without its effect.
    FailStore { fate: Fate, appends: u64 },
    /// The director stops at a call.
    StopCall(StopCall),
    /// .. or at the append of this number, from 1 on, to its store.
    StopStore { when: When, appends: u64 },
    /// The director starts again.
    Restart,
}

/// What a command is about.
// Dear to prove, since a command of many forms is taken apart.
pub fn kind_of(command: Command) -> Kind
    ensures { result ≡ kind_of command }
{
    match command {
        Command::File { path } => Kind::Keep(path),
        Command::UploadRelease { folder, version } => {
            Kind::Upload(Upload::Release { folder, version })
        }
        Command::UploadStemcell(stemcell) => Kind::Upload(Upload::Stemcell(stemcell)),
        Command::UpdateCloudConfig { path } => Kind::Upload(Upload::CloudConfig { path }),
        Command::Deploy(deploy) => Kind::Deploy(deploy),
        Command::Recreate(inst) => Kind::Open(Ask::Recreate(inst)),
        Command::Start(inst) => Kind::Open(Ask::Start(inst)),
        Command::Stop { inst, hard } => Kind::Open(Ask::Halt { inst, hard }),
        Command::DeleteDeployment { dep } => Kind::Open(Ask::DeleteDeployment(dep)),
        Command::Resolve(inst) => Kind::Open(Ask::Resolve(inst)),
        Command::DeleteDisk { disk } => Kind::Open(Ask::DeleteDisk(disk)),
        Command::CleanUp => Kind::Open(Ask::CleanUp),
        Command::Instances { dep } => Kind::List(Listing::Instances(dep)),
        Command::OrphanedDisks => Kind::List(Listing::OrphanedDisks),
        Command::Tasks => Kind::List(Listing::Tasks),
        Command::Task { task } => Kind::List(Listing::Task(task)),
        Command::Releases => Kind::List(Listing::Releases),
        Command::Compiled => Kind::List(Listing::Compiled),
        Command::CloudCheck { dep } => Kind::OfSite(SiteCommand::CloudCheck(dep)),
        Command::Cloud => Kind::OfSite(SiteCommand::Cloud),
        Command::Write { inst, text } => Kind::OfSite(SiteCommand::Write { inst, text }),
        Command::Read(inst) => Kind::OfSite(SiteCommand::Read(inst)),
        Command::Show { inst, path } => Kind::OfSite(SiteCommand::Show { inst, path }),
        Command::Lose { inst, lost } => Kind::OfSite(SiteCommand::Lose { inst, lost }),
        Command::FailCall(doom) => Kind::OfSite(SiteCommand::FailCall(doom)),
        Command::FailStore { fate, appends } => {
            Kind::OfSite(SiteCommand::FailStore { fate, appends })
        }
        Command::StopCall(stop) => Kind::OfSite(SiteCommand::StopCall(stop)),
        Command::StopStore { when, appends } => {
            Kind::OfSite(SiteCommand::StopStore { when, appends })
        }
        Command::Restart => Kind::OfSite(SiteCommand::Restart),
        Command::Together { .. } | Command::Generate { .. } => Kind::OfSession,
    }
}
