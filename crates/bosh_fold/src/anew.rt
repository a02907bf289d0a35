ghost use Rattle.std.specs.Prelude.{◌≡◌, IfOk, OnOk, fold};
ghost use Rattle.std.specs.List.{enumerate_from};
ghost use Rattle.bosh_records.specs.Recorded.{recorded};
ghost use Rattle.bosh_fold.specs.Anew.{anew, deployment_read, deployments_read, goal_read, key_read, keys_read};
ghost use Rattle.bosh_fold.specs.Anew.{machine_read, orphan_read, owners_read, row_read, task_read, tasks_read, uploads_read};

use crate::updating::add_orphan;
use crate::wants::note_wants;
use bosh_base::{BuiltKey, CompileRow, Copyable, DepRow, Goal, Orphan, Row, Snapshot, TaskRow};
use bosh_drops::put;
use bosh_records::{
    Instances, Keys, LooseDisk, Machine, Records, RecordsFault, Since, Table, copies,
};
use bosh_work::MachineName;
use std::alloc::Global;

/// What a snapshot tells takes the place of all that is recorded.
pub(crate) fn plan_snapshot(
    alloc: Global,
    snapshot: &Snapshot,
) -> Result<Box<Records>, RecordsFault>
    ensures { IfOk result (λ records. recorded records.value ≡ anew snapshot.now) }
{
    let mut records = Records::empty(alloc);
    read_uploads(&mut records, snapshot)?;
    read_deployments(&mut records, snapshot.deployments.as_slice())?;
    read_owners(&mut records, snapshot)?;
    read_keys(&mut records, snapshot.built_keys.as_slice())?;
    read_tasks(&mut records, snapshot.tasks.as_slice())?;
    records.last_call = snapshot.last_call;
    Ok(Box::new(alloc, records)?)
}

fn read_uploads(records: &mut Records, snapshot: &Snapshot) -> Result<(), RecordsFault>
    ensures { OnOk result (recorded records.new ≡ uploads_read snapshot.now (recorded records.old)) }
{
    let alloc = records.alloc;
    put(
        &mut records.releases,
        copies(alloc, snapshot.releases.as_slice())?,
    );
    put(
        &mut records.stemcells,
        copies(alloc, snapshot.stemcells.as_slice())?,
    );
    put(&mut records.config, snapshot.config.copy(alloc)?);
    Ok(())
}

fn read_deployments(records: &mut Records, rows: &[DepRow]) -> Result<(), RecordsFault>
    ensures { OnOk result (recorded records.new ≡ deployments_read rows.now (recorded records.old)) }
{
    for row in rows {
        read_wants(records.alloc, &mut records.instances, &row.goal)?;
    }
    note_deployments(records.alloc, &mut records.deployments, rows)
}

fn read_wants(alloc: Global, instances: &mut Instances, goal: &Goal) -> Result<(), RecordsFault>
    ensures { OnOk result
        (instances.new.by_inst.entries ≡ goal_read instances.old.by_inst.entries goal.now) }
{
    for want in goal.rows.iter() {
        instances.ensure(alloc, &want.inst)?;
    }
    note_wants(instances, goal);
    Ok(())
}

fn note_deployments(
    alloc: Global,
    deployments: &mut Table<Since, DepRow>,
    rows: &[DepRow],
) -> Result<(), RecordsFault>
    ensures { OnOk result (deployments.new.places.entries
        ≡ fold deployment_read deployments.old.places.entries (enumerate_from 0 rows.now)) }
{
    for (place, row) in rows.iter().enumerate() {
        note_deployment(alloc, deployments, place, row)?;
    }
    Ok(())
}

fn note_deployment(
    alloc: Global,
    deployments: &mut Table<Since, DepRow>,
    place: usize,
    row: &DepRow,
) -> Result<(), RecordsFault>
    ensures { OnOk result
        (deployments.new.places.entries ≡ deployment_read deployments.old.places.entries (place, row.now)) }
{
    let since = Since::Snapshot(place);
    deployments.ensure(since)?;
    deployments.put(&since, row.copy(alloc)?);
    Ok(())
}

// Instances, compile machines, and the disks that belong to no instance.
fn read_owners(records: &mut Records, snapshot: &Snapshot) -> Result<(), RecordsFault>
    ensures { OnOk result (recorded records.new ≡ owners_read snapshot.now (recorded records.old)) }
{
    let alloc = records.alloc;
    read_rows(alloc, &mut records.instances, snapshot.rows.as_slice())?;
    read_machines(
        alloc,
        &mut records.machines,
        snapshot.compile_rows.as_slice(),
    )?;
    read_orphans(alloc, &mut records.orphans, snapshot.orphans.as_slice())
}

fn read_rows(alloc: Global, instances: &mut Instances, rows: &[Row]) -> Result<(), RecordsFault>
    ensures { OnOk result
        (instances.new.by_inst.entries ≡ fold row_read instances.old.by_inst.entries rows.now) }
{
    for row in rows {
        read_row(alloc, instances, row)?;
    }
    Ok(())
}

fn read_row(alloc: Global, instances: &mut Instances, row: &Row) -> Result<(), RecordsFault>
    ensures { OnOk result (instances.new.by_inst.entries ≡ row_read instances.old.by_inst.entries row.now) }
{
    instances.ensure(alloc, &row.inst)?;
    instances.record(row.copy(alloc)?);
    Ok(())
}

fn read_machines(
    alloc: Global,
    machines: &mut Table<MachineName, Machine>,
    rows: &[CompileRow],
) -> Result<(), RecordsFault>
    ensures { OnOk result
        (machines.new.places.entries ≡ fold machine_read machines.old.places.entries rows.now) }
{
    for row in rows {
        read_machine(alloc, machines, row)?;
    }
    Ok(())
}

fn read_machine(
    alloc: Global,
    machines: &mut Table<MachineName, Machine>,
    row: &CompileRow,
) -> Result<(), RecordsFault>
    ensures { OnOk result
        (machines.new.places.entries ≡ machine_read machines.old.places.entries row.now) }
{
    let name = MachineName {
        task: row.task,
        slot: row.slot,
    };
    machines.ensure(name)?;
    let machine = Machine {
        row: row.copy(alloc)?,
        key: None,
        sweep: None,
        call: None,
    };
    machines.put(&name, machine);
    Ok(())
}

fn read_orphans(
    alloc: Global,
    orphans: &mut Table<u64, LooseDisk>,
    all: &[Orphan],
) -> Result<(), RecordsFault>
    ensures { OnOk result
        (orphans.new.places.entries ≡ fold orphan_read orphans.old.places.entries all.now) }
{
    for orphan in all {
        read_orphan(alloc, orphans, orphan)?;
    }
    Ok(())
}

fn read_orphan(
    alloc: Global,
    orphans: &mut Table<u64, LooseDisk>,
    orphan: &Orphan,
) -> Result<(), RecordsFault>
    ensures { OnOk result
        (orphans.new.places.entries ≡ orphan_read orphans.old.places.entries orphan.now) }
{
    orphans.ensure(orphan.disk)?;
    add_orphan(orphans, orphan.copy(alloc)?);
    Ok(())
}

fn read_keys(records: &mut Records, keys: &[BuiltKey]) -> Result<(), RecordsFault>
    ensures { OnOk result (recorded records.new ≡ keys_read keys.now (recorded records.old)) }
{
    for built in keys {
        read_key(records.alloc, &mut records.keys, built)?;
    }
    Ok(())
}

fn read_key(alloc: Global, keys: &mut Keys, built: &BuiltKey) -> Result<(), RecordsFault>
    ensures { OnOk result (keys.new.by_key.entries ≡ key_read keys.old.by_key.entries built.now) }
{
    keys.ensure(alloc, &built.name, &built.key)?;
    keys.set_digest(&built.key, built.digest);
    Ok(())
}

fn read_tasks(records: &mut Records, rows: &[TaskRow]) -> Result<(), RecordsFault>
    ensures { OnOk result (recorded records.new ≡ tasks_read rows.now (recorded records.old)) }
{
    for row in rows {
        read_task(records, row)?;
    }
    Ok(())
}

fn read_task(records: &mut Records, row: &TaskRow) -> Result<(), RecordsFault>
    ensures { OnOk result (recorded records.new ≡ task_read (recorded records.old) row.now) }
{
    records.tasks.ensure(row.task)?;
    records.tasks.put(&row.task, row.copy(records.alloc)?);
    records.opened = records.opened.saturating_add(1);
    Ok(())
}
