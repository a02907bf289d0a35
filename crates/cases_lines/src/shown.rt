//! Commands in words.
use bosh_base::Owner;
use bosh_fates::{Doom, Fate};
use bosh_lines::{Command, Deploy, Lost, Others, StopCall, When};
use cases_words::{Flag, Told};
use std::fmt;

/// A command, of which the first word tells the form, but for what stands behind a bar.
#[derive(Clone, Copy)]
pub(crate) struct CommandTold<'a>(pub(crate) &'a Command);

// Whose calls are meant, as in a line.
#[derive(Clone, Copy)]
struct Whose<'a>(&'a Option<Owner>);

impl fmt::Display for Whose<'_> {
    fn fmt<W: fmt::Write>(&self, f: &mut fmt::Formatter<W>) -> fmt::Result {
        match self.0 {
            Some(owner) => write!(f, "{}", Told(owner)),
            None => f.write_str("*"),
        }
    }
}

fn fate(fate: Fate) -> &'static str {
    match fate {
        Fate::Lose => "lose",
        Fate::Late => "late",
    }
}

fn when(when: When) -> &'static str {
    match when {
        When::Before => "before",
        When::After => "after",
    }
}

fn others(others: Others) -> &'static str {
    match others {
        Others::Undone => "none",
        Others::Done => "all",
    }
}

fn lost(lost: Lost) -> &'static str {
    match lost {
        Lost::Vm => "vm",
        Lost::Agent => "agent",
    }
}

// The deployment, the path and the flags, and a line for each variable.
fn add_deploy<W: fmt::Write>(f: &mut fmt::Formatter<W>, deploy: &Deploy) -> fmt::Result {
    let flags = (Flag(deploy.recreate, "recreate"), Flag(deploy.fix, "fix"));
    let (dep, path) = (Told(&deploy.dep), Told(&deploy.path));
    write!(f, "deploy {dep} {path}{}{}", flags.0, flags.1)?;
    for var in &deploy.vars {
        write!(f, "\n{}={}", Told(&var.name), Told(&var.value))?;
    }
    Ok(())
}

fn add_doom<W: fmt::Write>(f: &mut fmt::Formatter<W>, doom: &Doom) -> fmt::Result {
    let (fate, method) = (fate(doom.fate), doom.method.name());
    write!(
        f,
        "fail {fate} {method} {} {}",
        Whose(&doom.owner),
        doom.calls
    )
}

fn add_stop<W: fmt::Write>(f: &mut fmt::Formatter<W>, stop: &StopCall) -> fmt::Result {
    let (when, method, others) = (when(stop.when), stop.method.name(), others(stop.others));
    let (owner, calls) = (Whose(&stop.owner), stop.calls);
    write!(f, "stop-call {when} {method} {owner} {calls} {others}")
}

// What fails or stops or is lost.
fn add_trouble<W: fmt::Write>(f: &mut fmt::Formatter<W>, command: &Command) -> fmt::Result {
    match command {
        Command::FailCall(doom) => add_doom(f, doom),
        Command::FailStore { fate: it, appends } => {
            write!(f, "fail-store {} {appends}", fate(*it))
        }
        Command::StopCall(stop) => add_stop(f, stop),
        Command::StopStore { when: it, appends } => {
            write!(f, "stop-store {} {appends}", when(*it))
        }
        Command::Lose { inst, lost: it } => write!(f, "lose {} {}", lost(*it), Told(inst)),
        Command::Write { inst, .. } => write!(f, "write {}|", Told(inst)),
        Command::Read(inst) => write!(f, "read {}", Told(inst)),
        Command::Show { inst, .. } => write!(f, "show {}|", Told(inst)),
        Command::Restart => f.write_str("restart"),
        Command::Cloud => f.write_str("cloud"),
        Command::Generate { instances } => write!(f, "generate {instances}"),
        _ => Ok(()),
    }
}

// What is asked of the director by a number or by nothing.
fn add_listing<W: fmt::Write>(f: &mut fmt::Formatter<W>, command: &Command) -> fmt::Result {
    match command {
        Command::OrphanedDisks => f.write_str("disks"),
        Command::DeleteDisk { disk } => write!(f, "delete-disk {disk}"),
        Command::CleanUp => f.write_str("clean-up"),
        Command::Tasks => f.write_str("tasks"),
        Command::Task { task } => write!(f, "task {task}"),
        Command::Releases => f.write_str("releases"),
        Command::Compiled => f.write_str("compiled"),
        Command::Together { count } => write!(f, "together {count}"),
        other => add_trouble(f, other),
    }
}

// What is asked of the director for an instance or a deployment.
fn add_named<W: fmt::Write>(f: &mut fmt::Formatter<W>, command: &Command) -> fmt::Result {
    match command {
        Command::Deploy(it) => add_deploy(f, it),
        Command::Instances { dep } => write!(f, "instances {}", Told(dep)),
        Command::Recreate(inst) => write!(f, "recreate {}", Told(inst)),
        Command::Start(inst) => write!(f, "start {}", Told(inst)),
        Command::Stop { inst, hard } => write!(f, "stop {}{}", Told(inst), Flag(*hard, "hard")),
        Command::DeleteDeployment { dep } => write!(f, "delete-deployment {}", Told(dep)),
        Command::CloudCheck { dep } => write!(f, "cloud-check {}", Told(dep)),
        Command::Resolve(inst) => write!(f, "resolve {}", Told(inst)),
        other => add_listing(f, other),
    }
}

impl fmt::Display for CommandTold<'_> {
    fn fmt<W: fmt::Write>(&self, f: &mut fmt::Formatter<W>) -> fmt::Result {
        match self.0 {
            Command::File { path } => write!(f, "file {}", Told(path)),
            Command::UploadRelease { folder, version } => {
                write!(f, "upload-release {} {}", Told(folder), Told(version))
            }
            Command::UploadStemcell(it) => {
                write!(f, "upload-stemcell {} {}", Told(&it.os), Told(&it.version))
            }
            Command::UpdateCloudConfig { path } => {
                write!(f, "update-cloud-config {}", Told(path))
            }
            other => add_named(f, other),
        }
    }
}
