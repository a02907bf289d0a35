ghost use Rattle.std.specs.Prelude.{◌≡◌};
ghost use Rattle.bosh_entry.specs.Reading.{Gives};
ghost use Rattle.bosh_entry.specs.Task.{fault_at, gone_at};

use crate::coded::Coded;
use crate::fault::EntryFault;
use crate::format::Format;
use crate::later::before_both_later;
use crate::pair::{write_both, write_four, write_three};
use crate::source::Source;
use crate::variant::{write_place, write_variant};
use bosh_base::{Inst, Method, Owner, TaskEnd, TaskKind, TaskRow};
use std::alloc::Global;

impl Coded for TaskKind {
    ghost use Rattle.bosh_entry.specs.Task.{task_kind, is_task_kind, task_kind_at};

    ghost spelling = { λ _. task_kind };

    ghost fits = { is_task_kind };

    ghost reading = { task_kind_at };

    #[tactic(auto, unfolding(crate::specs::Task::task_kind, crate::specs::Task::is_task_kind))]
    fn write(&self, out: &mut Vec<u8>) -> Result<(), EntryFault> {
        match self {
            TaskKind::Deploy => write_place(0, out),
            TaskKind::Recreate(inst) => write_variant(1, inst, out),
            TaskKind::Start(inst) => write_variant(2, inst, out),
            TaskKind::Stop(inst) => write_variant(3, inst, out),
            TaskKind::DeleteDeployment => write_place(4, out),
            TaskKind::DeleteDisk(number) => write_variant(5, number, out),
            TaskKind::CleanUp => write_place(6, out),
            TaskKind::Fix => write_place(7, out),
            TaskKind::Resolve(inst) => write_variant(8, inst, out),
        }
    }

    #[tactic(auto, unfolding(crate::specs::Task::task_kind_at, crate::specs::Later::present_at))]
    fn read(alloc: Global, format: Format, from: &mut Source) -> Result<Self, EntryFault> {
        match from.byte()? {
            0 => Ok(TaskKind::Deploy),
            1 => Inst::read(alloc, format, from).map(TaskKind::Recreate),
            2 => Inst::read(alloc, format, from).map(TaskKind::Start),
            3 => Inst::read(alloc, format, from).map(TaskKind::Stop),
            4 => Ok(TaskKind::DeleteDeployment),
            5 => u64::read(alloc, format, from).map(TaskKind::DeleteDisk),
            6 => Ok(TaskKind::CleanUp),
            7 => match format {
                Format::Older => Err(EntryFault::NotAnEntry),
                Format::Present => Ok(TaskKind::Fix)
            },
            8 => match format {
                Format::Older => Err(EntryFault::NotAnEntry),
                Format::Present => Inst::read(alloc, format, from).map(TaskKind::Resolve)
            },
            _ => Err(EntryFault::NotAnEntry),
        }
    }
}

fn fault(alloc: Global, format: Format, from: &mut Source) -> Result<TaskEnd, EntryFault>
    ensures { Gives result from.new.rest.now (fault_at from.old.rest.now) }
{
    let n = from.number()?;
    let method = Method::read(alloc, format, from)?;
    let owner = Owner::read(alloc, format, from)?;
    Ok(TaskEnd::Fault { n, method, owner })
}

fn gone(alloc: Global, format: Format, from: &mut Source) -> Result<TaskEnd, EntryFault>
    ensures { Gives result from.new.rest.now (gone_at from.old.rest.now) }
{
    let n = from.number()?;
    let method = Method::read(alloc, format, from)?;
    let owner = Owner::read(alloc, format, from)?;
    Ok(TaskEnd::Gone { n, method, owner })
}

impl Coded for TaskEnd {
    ghost use Rattle.bosh_entry.specs.Task.{task_end, is_task_end, task_end_at};

    ghost spelling = { λ _. task_end };

    ghost fits = { is_task_end };

    ghost reading = { task_end_at };

    #[tactic(auto, unfolding(crate::specs::Task::task_end, crate::specs::Task::is_task_end))]
    fn write(&self, out: &mut Vec<u8>) -> Result<(), EntryFault> {
        match self {
            TaskEnd::Finished => write_place(0, out),
            TaskEnd::Fault { n, method, owner } => {
                out.push(1)?;
                write_three(n, method, owner, out)
            }
            TaskEnd::Interrupted => write_place(2, out),
            TaskEnd::Gone { n, method, owner } => {
                out.push(3)?;
                write_three(n, method, owner, out)
            }
        }
    }

    #[tactic(auto, unfolding(crate::specs::Task::task_end_at, crate::specs::Later::present_at))]
    fn read(alloc: Global, format: Format, from: &mut Source) -> Result<Self, EntryFault> {
        match from.byte()? {
            0 => Ok(TaskEnd::Finished),
            1 => fault(alloc, format, from),
            2 => Ok(TaskEnd::Interrupted),
            3 => match format {
                Format::Older => Err(EntryFault::NotAnEntry),
                Format::Present => gone(alloc, format, from),
            },
            _ => Err(EntryFault::NotAnEntry),
        }
    }
}

impl Coded for TaskRow {
    ghost use Rattle.bosh_entry.specs.Task.{task_row, is_task_row, task_row_at};

    ghost spelling = { task_row };

    ghost fits = { is_task_row };

    ghost reading = { task_row_at };

    #[tactic(auto, unfolding(crate::specs::Task::task_row, crate::specs::Task::is_task_row))]
    fn write(&self, out: &mut Vec<u8>) -> Result<(), EntryFault> {
        write_four(&self.task, &self.kind, &self.dep, &self.end, out)?;
        write_both(&self.source, &self.calls, out)
    }

    #[tactic(auto, using(crate::proofs::StructLemmas::task_row_parts))]
    fn read(alloc: Global, format: Format, from: &mut Source) -> Result<Self, EntryFault> {
        let (fields, calls) = before_both_later(alloc, format, from, None, None)?;
        let (((task, kind), (dep, end)), source) = fields;
        Ok(TaskRow {
            task,
            kind,
            dep,
            end,
            source,
            calls,
        })
    }
}
