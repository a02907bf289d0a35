//! What is recorded, and what is there in the cloud, is listed.
ghost use Rattle.std.specs.Prelude.{◌≡◌, IfOk, map};
ghost use Rattle.bosh_answers.specs.Listings.{IsListed, TellsCompiled, shown_task};
ghost use Rattle.bosh_base.specs.declared.reply.Reply.TheVariants as replies;
ghost use Rattle.bosh_records.specs.Readers.{task_at};
ghost use Rattle.bosh_shown.specs.Cloud.{cloud_listing};
ghost use Rattle.bosh_shown.specs.Instances.{instance_lines};
ghost use Rattle.bosh_shown.specs.Orphans.{orphan_lines};
ghost use Rattle.bosh_shown.specs.Releases.{release_line};
ghost use Rattle.bosh_shown.specs.Tasks.{task_lines};

use crate::{AnswerFault, Listing, refused};
use bosh_base::{Disk, Machine, Name, Reply};
use bosh_records::Records;
use bosh_refusals::SessionFault;
use bosh_shown::{
    cloud_listing, instance_lines, orphan_lines, release_lines, task_detail, task_lines,
};
use std::alloc::Global;

/// The recorded instances of a deployment.
pub fn list_instances(alloc: Global, records: &Records, dep: &Name) -> Result<Reply, AnswerFault>
    ensures { IfOk result (λ reply. reply ≡ replies.Instances (instance_lines dep.now records.now.instances.by_inst.entries)) }
{
    Ok(Reply::Instances(instance_lines(alloc, records, dep)?))
}

/// The orphaned disks.
pub fn list_orphans(alloc: Global, records: &Records) -> Result<Reply, AnswerFault>
    ensures { IfOk result (λ reply. reply ≡ replies.Orphans (orphan_lines records.now.orphans.places.entries)) }
{
    Ok(Reply::Orphans(orphan_lines(alloc, records)?))
}

/// The tasks.
pub fn list_tasks(alloc: Global, records: &Records) -> Result<Reply, AnswerFault>
    ensures { IfOk result (λ reply. reply ≡ replies.Tasks (task_lines records.now.tasks.places.entries)) }
{
    Ok(Reply::Tasks(task_lines(alloc, records)?))
}

/// One task.
pub fn show_task(alloc: Global, records: &Records, task: u64) -> Result<Reply, AnswerFault>
    ensures { IfOk result (λ reply. reply ≡ shown_task task (task_at records.now task)) }
{
    match task_detail(alloc, records, task) {
        Ok(Some(detail)) => Ok(Reply::Task(detail)),
        Ok(None) => refused(alloc, SessionFault::NoTask { task }),
        Err(_) => Err(AnswerFault::Memory),
    }
}

/// The releases.
pub fn list_releases(alloc: Global, records: &Records) -> Result<Reply, AnswerFault>
    ensures { IfOk result (λ reply. reply ≡ replies.Releases (map release_line records.now.releases.items)) }
{
    Ok(Reply::Releases(release_lines(alloc, records.releases())?))
}

/// The compiled packages.
pub fn list_compiled(records: &Records) -> Result<Reply, AnswerFault>
    ensures { IfOk result (TellsCompiled records.now) }
{
    Ok(Reply::Compiled(records.built_keys()?))
}

/// The machines and disks that are there.
pub fn list_cloud(
    alloc: Global,
    machines: &[Option<Machine>],
    disks: &[Option<Disk>],
) -> Result<Reply, AnswerFault>
    ensures { IfOk result (λ reply. reply ≡ replies.Cloud (cloud_listing machines.now disks.now)) }
{
    Ok(Reply::Cloud(cloud_listing(alloc, machines, disks)?))
}

/// Lists what is recorded.
pub fn list(alloc: Global, listing: &Listing, records: &Records) -> Result<Reply, AnswerFault>
    ensures { IfOk result (IsListed listing.now records.now) }
{
    match listing {
        Listing::Instances(dep) => list_instances(alloc, records, dep),
        Listing::OrphanedDisks => list_orphans(alloc, records),
        Listing::Tasks => list_tasks(alloc, records),
        Listing::Task(task) => show_task(alloc, records, *task),
        Listing::Releases => list_releases(alloc, records),
        Listing::Compiled => list_compiled(records),
    }
}
