ghost use Rattle.std.specs.Prelude.{◌≡◌, IfOk, OnOk};
ghost use Rattle.bosh_records.specs.Table.{things};
ghost use Rattle.bosh_views.specs.Snapshot.{IsSnapshot, compile_rows, loose_disks, recorded_rows};

use bosh_base::{CompileRow, Copyable, DepRow, Orphan, Row, Seq, Snapshot, TaskRow};
use bosh_drops::put;
use bosh_records::{Records, RecordsFault, copies};
use std::alloc::Global;

/// All that is recorded, as one entry tells it: all but what only a task that goes on needs.
pub fn snapshot(records: &Records) -> Result<Snapshot, RecordsFault>
    ensures { IfOk result (λ snapshot. IsSnapshot records.now snapshot) }
{
    let mut snapshot = nothing(records.alloc);
    write(records, &mut snapshot)?;
    Ok(snapshot)
}

fn write(records: &Records, snapshot: &mut Snapshot) -> Result<(), RecordsFault>
    ensures { OnOk result (IsSnapshot records.now snapshot.new) }
{
    put(
        &mut snapshot.releases,
        Seq::from(copies(records.alloc, records.releases())?),
    );
    put(
        &mut snapshot.stemcells,
        Seq::from(copies(records.alloc, records.stemcells())?),
    );
    put(&mut snapshot.config, records.config.copy(records.alloc)?);
    put(
        &mut snapshot.deployments,
        Seq::from(deployment_rows(records)?),
    );
    put(&mut snapshot.rows, Seq::from(instance_rows(records)?));
    put(
        &mut snapshot.compile_rows,
        Seq::from(compile_rows(records)?),
    );
    put(&mut snapshot.orphans, Seq::from(orphan_rows(records)?));
    put(&mut snapshot.built_keys, records.built_keys()?);
    put(&mut snapshot.tasks, Seq::from(task_rows(records)?));
    snapshot.last_call = records.last_call;
    Ok(())
}

fn deployment_rows(records: &Records) -> Result<Vec<DepRow>, RecordsFault>
    ensures { IfOk result (λ rows. rows.items ≡ things records.now.deployments.places.entries) }
{
    let mut rows = Vec::new(records.alloc);
    for (_, row) in records.deployments.iter() {
        if let Some(row) = row {
            rows.push(row.copy(records.alloc)?)?;
        }
    }
    Ok(rows)
}

fn instance_rows(records: &Records) -> Result<Vec<Row>, RecordsFault>
    ensures { IfOk result (λ rows. rows.items ≡ recorded_rows records.now.instances.by_inst.entries) }
{
    let mut rows = Vec::new(records.alloc);
    for (_, instance) in records.instances.iter() {
        if let Some(row) = &instance.row {
            rows.push(row.copy(records.alloc)?)?;
        }
    }
    Ok(rows)
}

fn compile_rows(records: &Records) -> Result<Vec<CompileRow>, RecordsFault>
    ensures { IfOk result (λ rows. rows.items ≡ compile_rows records.now.machines.places.entries) }
{
    let mut rows = Vec::new(records.alloc);
    for (_, machine) in records.machines.iter() {
        if let Some(machine) = machine {
            rows.push(machine.row.copy(records.alloc)?)?;
        }
    }
    Ok(rows)
}

fn orphan_rows(records: &Records) -> Result<Vec<Orphan>, RecordsFault>
    ensures { IfOk result (λ rows. rows.items ≡ loose_disks records.now.orphans.places.entries) }
{
    let mut rows = Vec::new(records.alloc);
    for (_, loose) in records.orphans.iter() {
        if let Some(loose) = loose {
            rows.push(loose.orphan.copy(records.alloc)?)?;
        }
    }
    Ok(rows)
}

fn task_rows(records: &Records) -> Result<Vec<TaskRow>, RecordsFault>
    ensures { IfOk result (λ rows. rows.items ≡ things records.now.tasks.places.entries) }
{
    let mut rows = Vec::new(records.alloc);
    for (_, row) in records.tasks.iter() {
        if let Some(row) = row {
            rows.push(row.copy(records.alloc)?)?;
        }
    }
    Ok(rows)
}

fn nothing(alloc: Global) -> Snapshot {
    Snapshot {
        releases: Seq::new(alloc),
        stemcells: Seq::new(alloc),
        config: None,
        deployments: Seq::new(alloc),
        rows: Seq::new(alloc),
        compile_rows: Seq::new(alloc),
        orphans: Seq::new(alloc),
        built_keys: Seq::new(alloc),
        tasks: Seq::new(alloc),
        last_call: 0,
    }
}
