ghost use Rattle.std.specs.Prelude.{◌≡◌, ◌++◌, IfOk, OnOk};
ghost use Rattle.bosh_report.specs.Reply.{contents_text, generated_line, text_of};

use crate::ReportFault;
use crate::piece::{Piece, add, add_each, add_number};
use crate::problem::add_problems;
use crate::release::{add_stemcell, add_stemcell_there};
use crate::task::{add_task_error, add_task_finished};
use bosh_base::{Generated, Reply, Text};
use std::alloc::Global;

/// The text that answers a command: lines that each end with a line feed, or nothing.
pub fn say(alloc: Global, reply: &Reply) -> Result<Vec<u8>, ReportFault>
    ensures { IfOk result (λ text. text.items ≡ text_of reply.now) }
{
    let mut out = Vec::new(alloc);
    add_reply(&mut out, reply)?;
    Ok(out)
}

fn add_reply(out: &mut Vec<u8>, reply: &Reply) -> Result<(), ReportFault>
    ensures { OnOk result (out.new.items ≡ out.old.items ++ text_of reply.now) }
{
    match reply {
        Reply::ReleaseAdded(release) => release.add_to(out),
        Reply::ReleaseThere(release) => release.add_to(out),
        Reply::StemcellAdded(stemcell) => add_stemcell(out, stemcell),
        Reply::StemcellThere(stemcell) => add_stemcell_there(out, stemcell),
        Reply::ConfigUpdated => add(out, b"cloud config updated\n"),
        Reply::TaskFinished(task) => add_task_finished(out, *task),
        Reply::TaskFailed(call) => add_task_error(out, call, b" failed"),
        Reply::TaskGone(call) => add_task_error(out, call, b" gone"),
        Reply::Instances(lines) => add_each(out, lines.as_slice()),
        Reply::Orphans(lines) => add_each(out, lines.as_slice()),
        Reply::Tasks(lines) => add_each(out, lines.as_slice()),
        Reply::Task(task) => task.add_to(out),
        Reply::Releases(lines) => add_each(out, lines.as_slice()),
        Reply::Compiled(keys) => add_each(out, keys.as_slice()),
        Reply::Cloud(listing) => listing.add_to(out),
        Reply::Contents(text) => add_contents(out, text),
        Reply::Written => add(out, b"written\n"),
        Reply::Restarted => add(out, b"restarted\n"),
        Reply::Lost => add(out, b"lost\n"),
        Reply::Nothing => Ok(()),
        Reply::Generated(generated) => add_generated(out, *generated),
        Reply::Problems(problems) => add_problems(out, problems.as_slice()),
        Reply::Refused(refusal) => refusal.add_to(out),
    }
}

/// A text, which ends with a line feed even where it had none.
fn add_contents(out: &mut Vec<u8>, text: &Text) -> Result<(), ReportFault>
    ensures { OnOk result (out.new.items ≡ out.old.items ++ contents_text text.now) }
{
    text.add_to(out)?;
    if text.as_slice().ends_with(b"\n") {
        Ok(())
    } else {
        add(out, b"\n")
    }
}

fn add_generated(out: &mut Vec<u8>, generated: Generated) -> Result<(), ReportFault>
    ensures { OnOk result (out.new.items ≡ out.old.items ++ generated_line generated) }
{
    add(out, b"generated ")?;
    add_number(out, generated.instances)?;
    add(out, b" instances in ")?;
    add_number(out, generated.groups)?;
    add(out, b" groups with ")?;
    add_number(out, generated.calls)?;
    add(out, b" calls\n")
}
