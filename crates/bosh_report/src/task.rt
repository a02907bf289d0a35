ghost use Rattle.std.specs.Prelude.{◌≡◌, ◌++◌, OnOk};
ghost use Rattle.bosh_report.specs.Task.{call_text, cause_text, named_text, status_text, task_detail, task_error, task_finished, task_line, what_text};

use crate::ReportFault;
use crate::owner::add_disk;
use crate::piece::{Piece, add, add_number};
use bosh_base::{FailedCall, Method, Name, Owner, TaskDetail, TaskEnd, TaskKind, TaskLine};

/// `call N METHOD OWNER`, and how it ended.
fn add_call(
    out: &mut Vec<u8>,
    n: u64,
    method: Method,
    owner: &Owner,
    outcome: &[u8],
) -> Result<(), ReportFault>
    ensures { OnOk result (out.new.items ≡ out.old.items ++ call_text n method owner.now outcome.now) }
{
    add(out, b"call ")?;
    add_number(out, n)?;
    add(out, b" ")?;
    add(out, method.name().as_bytes())?;
    add(out, b" ")?;
    owner.add_to(out)?;
    add(out, outcome)
}

pub(crate) fn add_task_finished(out: &mut Vec<u8>, task: u64) -> Result<(), ReportFault>
    ensures { OnOk result (out.new.items ≡ out.old.items ++ task_finished task) }
{
    add(out, b"task ")?;
    add_number(out, task)?;
    add(out, b" done\n")
}

/// The end of a task by a call, which ended so.
pub(crate) fn add_task_error(
    out: &mut Vec<u8>,
    call: &FailedCall,
    outcome: &[u8],
) -> Result<(), ReportFault>
    ensures { OnOk result (out.new.items ≡ out.old.items ++ task_error call.now outcome.now) }
{
    add(out, b"task ")?;
    add_number(out, call.task)?;
    add(out, b" error: ")?;
    add_call(out, call.n, call.method, &call.owner, outcome)?;
    add(out, b"\n")
}

/// A verb and what it is about.
fn add_named<T: Piece>(out: &mut Vec<u8>, verb: &[u8], named: &T) -> Result<(), ReportFault>
    ensures { OnOk result (out.new.items ≡ out.old.items ++ named_text verb.now (T.text named.now)) }
{
    add(out, verb)?;
    add(out, b" ")?;
    named.add_to(out)
}

/// The kind of a task, and the deployment, instance or disk that it names.
fn add_what(out: &mut Vec<u8>, kind: &TaskKind, dep: &Option<Name>) -> Result<(), ReportFault>
    ensures { OnOk result (out.new.items ≡ out.old.items ++ what_text kind.now dep.now) }
{
    match kind {
        TaskKind::Deploy | TaskKind::Fix => add_named(out, b"deploy", dep),
        TaskKind::Recreate(inst) => add_named(out, b"recreate", inst),
        TaskKind::Start(inst) => add_named(out, b"start", inst),
        TaskKind::Stop(inst) => add_named(out, b"stop", inst),
        TaskKind::DeleteDeployment => add_named(out, b"delete-deployment", dep),
        TaskKind::DeleteDisk(disk) => {
            add(out, b"delete-disk ")?;
            add_disk(out, *disk)
        }
        TaskKind::CleanUp => add(out, b"clean-up"),
        TaskKind::Resolve(inst) => add_named(out, b"resolve", inst),
    }
}

fn add_status(out: &mut Vec<u8>, end: &Option<TaskEnd>) -> Result<(), ReportFault>
    ensures { OnOk result (out.new.items ≡ out.old.items ++ status_text end.now) }
{
    match end {
        None => add(out, b" open "),
        Some(TaskEnd::Finished) => add(out, b" done "),
        Some(_) => add(out, b" error "),
    }
}

/// Why a task ended as an error, where it did.
fn add_cause(out: &mut Vec<u8>, end: &Option<TaskEnd>) -> Result<(), ReportFault>
    ensures { OnOk result (out.new.items ≡ out.old.items ++ cause_text end.now) }
{
    match end {
        None | Some(TaskEnd::Finished) => Ok(()),
        Some(TaskEnd::Interrupted) => add(out, b": interrupted"),
        Some(TaskEnd::Fault { n, method, owner }) => {
            add(out, b": ")?;
            add_call(out, *n, *method, owner, b" failed")
        }
        Some(TaskEnd::Gone { n, method, owner }) => {
            add(out, b": ")?;
            add_call(out, *n, *method, owner, b" gone")
        }
    }
}

impl Piece for TaskLine {
    ghost text = { task_line };

    fn add_to(&self, out: &mut Vec<u8>) -> Result<(), ReportFault> {
        add_number(out, self.task)?;
        add_status(out, &self.end)?;
        add_what(out, &self.kind, &self.dep)?;
        add_cause(out, &self.end)?;
        add(out, b"\n")
    }
}

impl Piece for TaskDetail {
    ghost text = { task_detail };

    fn add_to(&self, out: &mut Vec<u8>) -> Result<(), ReportFault> {
        self.line.add_to(out)?;
        add(out, b"calls ")?;
        self.calls.add_to(out)?;
        add(out, b"\nmanifest ")?;
        self.source.add_to(out)?;
        add(out, b"\n")
    }
}
