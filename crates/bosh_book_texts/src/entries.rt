//! Entries in words, one a line.
use crate::calls::{push_answer, push_call};
use bosh_base::{
    Begin, End, Entry, Failure, Inst, Loss, Snapshot, TaskError, TaskKind, TaskOpen, Update, Write,
};
use bosh_case_texts::{push_count, push_inst, push_owner};
use bosh_cases::push_parts;
use std::alloc::AllocError;

fn push_kind(text: &mut Vec<u8>, kind: &TaskKind) -> Result<(), AllocError> {
    match kind {
        TaskKind::Deploy => push_parts(text, &[b" deploy"]),
        TaskKind::Fix => push_parts(text, &[b" fix"]),
        TaskKind::DeleteDeployment => push_parts(text, &[b" delete"]),
        TaskKind::CleanUp => push_parts(text, &[b" clean-up"]),
        TaskKind::DeleteDisk(disk) => push_count(text, b" delete-disk ", *disk),
        TaskKind::Recreate(inst) => push_inst(text, b" recreate ", inst),
        TaskKind::Start(inst) => push_inst(text, b" start ", inst),
        TaskKind::Stop(inst) => push_inst(text, b" stop ", inst),
        TaskKind::Resolve(inst) => push_inst(text, b" resolve ", inst),
    }
}

// Adds a word and what a list has, where it has something.
fn push_instances(text: &mut Vec<u8>, word: &[u8], list: &[Inst]) -> Result<(), AllocError> {
    if list.is_empty() {
        return Ok(());
    }
    push_parts(text, &[b" ", word])?;
    for inst in list {
        push_inst(text, b" ", inst)?;
    }
    Ok(())
}

fn push_disks(text: &mut Vec<u8>, disks: &[u64]) -> Result<(), AllocError> {
    if disks.is_empty() {
        return Ok(());
    }
    push_parts(text, &[b" disks"])?;
    for disk in disks {
        push_count(text, b" ", *disk)?;
    }
    Ok(())
}

// As `TaskOpen 1 deploy dep changed dep/web/0`. Of the goal nothing is told but how many keys it has to compile.
fn push_opening(text: &mut Vec<u8>, opening: &TaskOpen) -> Result<(), AllocError> {
    push_count(text, b"TaskOpen ", opening.task)?;
    push_kind(text, &opening.kind)?;
    if let Some(dep) = &opening.dep {
        push_parts(text, &[b" of ", dep.as_bytes()])?;
    }
    push_lists(text, opening)
}

fn push_lists(text: &mut Vec<u8>, opening: &TaskOpen) -> Result<(), AllocError> {
    push_instances(text, b"changed", opening.changed.as_slice())?;
    push_instances(text, b"obsolete", opening.obsolete.as_slice())?;
    push_disks(text, opening.disks.as_slice())?;
    match &opening.goal {
        Some(goal) if !goal.keys.is_empty() => push_count(text, b" keys ", goal.keys.len() as u64),
        _ => Ok(()),
    }
}

// As `Begin 1 task 1 worker 0 dep/web/0 start 1`.
fn push_begin(text: &mut Vec<u8>, begin: &Begin) -> Result<(), AllocError> {
    push_count(text, b"Begin ", begin.n)?;
    push_count(text, b" task ", begin.task)?;
    push_count(text, b" worker ", u64::from(begin.worker))?;
    push_owner(text, b" ", &begin.owner)?;
    text.push(b' ')?;
    push_call(text, &begin.call)
}

fn push_end(text: &mut Vec<u8>, end: &End) -> Result<(), AllocError> {
    push_count(text, b"End ", end.n)?;
    text.push(b' ')?;
    push_answer(text, &end.answer)
}

fn push_update(text: &mut Vec<u8>, word: &[u8], update: &Update) -> Result<(), AllocError> {
    push_count(text, word, update.task)?;
    push_inst(text, b" ", &update.inst)
}

fn push_error(text: &mut Vec<u8>, error: &TaskError) -> Result<(), AllocError> {
    push_count(text, b"TaskError ", error.task)?;
    match error.cause {
        Failure::Interrupted => push_parts(text, &[b" interrupted"]),
        Failure::Call(n) => push_count(text, b" call ", n),
        Failure::Gone(n) => push_count(text, b" gone ", n),
    }
}

// Of a snapshot nothing is told but how many rows and tasks it has.
fn push_snapshot(text: &mut Vec<u8>, snapshot: &Snapshot) -> Result<(), AllocError> {
    push_count(text, b"Snapshot rows ", snapshot.rows.len() as u64)?;
    push_count(text, b" tasks ", snapshot.tasks.len() as u64)
}

fn push_write(text: &mut Vec<u8>, write: &Write) -> Result<(), AllocError> {
    push_count(text, b"Write ", write.disk)?;
    push_parts(text, &[b" ", write.text.as_slice()])
}

/// Adds a machine that is lost, as `Lost 1 whole`.
pub fn push_loss(text: &mut Vec<u8>, loss: &Loss) -> Result<(), AllocError> {
    push_count(text, b"Lost ", loss.vm)?;
    if loss.whole {
        push_parts(text, &[b" whole"])
    } else {
        push_parts(text, &[b" silent"])
    }
}

/// Adds an entry, as `UpdBegin 1 dep/web/0`.
pub fn push_entry(text: &mut Vec<u8>, entry: &Entry) -> Result<(), AllocError> {
    match entry {
        Entry::Release(release) => push_parts(
            text,
            &[
                b"Release ",
                release.name.as_bytes(),
                b" ",
                release.version.as_slice(),
            ],
        ),
        Entry::Stemcell(stemcell) => push_parts(
            text,
            &[
                b"Stemcell ",
                stemcell.os.as_bytes(),
                b" ",
                stemcell.version.as_slice(),
            ],
        ),
        Entry::Config(_) => push_parts(text, &[b"Config"]),
        Entry::TaskOpen(opening) => push_opening(text, opening),
        Entry::Begin(begin) => push_begin(text, begin),
        Entry::End(end) => push_end(text, end),
        Entry::UpdBegin(update) => push_update(text, b"UpdBegin ", update),
        Entry::UpdDone(update) => push_update(text, b"UpdDone ", update),
        Entry::Gone(update) => push_update(text, b"Gone ", update),
        Entry::TaskDone(task) => push_count(text, b"TaskDone ", *task),
        Entry::TaskError(error) => push_error(text, error),
        Entry::Snapshot(snapshot) => push_snapshot(text, snapshot),
        Entry::Effect(effect) => push_count(text, b"Effect ", effect.n),
        Entry::Write(write) => push_write(text, write),
        Entry::Lost(loss) => push_loss(text, loss),
    }
}

/// Adds entries, each on a line.
pub fn push_entries(text: &mut Vec<u8>, entries: &[Entry]) -> Result<(), AllocError> {
    for entry in entries {
        push_entry(text, entry)?;
        text.push(b'\n')?;
    }
    Ok(())
}
