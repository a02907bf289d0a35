ghost use Rattle.std.specs.Prelude.{◌≡◌};

use crate::coded::Coded;
use crate::fault::EntryFault;
use crate::format::Format;
use crate::later::before_later;
use crate::number::worker;
use crate::pair::write_four;
use crate::source::Source;
use bosh_base::{
    Answer, Begin, Effect, End, Failure, Inst, Loss, TaskError, TaskOpen, Text, Update, Write,
};
use std::alloc::Global;

impl Coded for TaskOpen {
    ghost use Rattle.bosh_entry.specs.Entry.{task_open, is_task_open, task_open_at};

    ghost spelling = { task_open };

    ghost fits = { is_task_open };

    ghost reading = { task_open_at };

    #[tactic(auto, unfolding(crate::specs::Entry::task_open, crate::specs::Entry::is_task_open))]
    fn write(&self, out: &mut Vec<u8>) -> Result<(), EntryFault> {
        write_four(&self.task, &self.kind, &self.dep, &self.goal, out)?;
        write_four(
            &self.changed,
            &self.obsolete,
            &self.disks,
            &self.source,
            out,
        )
    }

    #[tactic(auto, using(crate::proofs::StructLemmas::task_open_parts))]
    fn read(alloc: Global, format: Format, from: &mut Source) -> Result<Self, EntryFault> {
        let (fields, source) = before_later(alloc, format, from, None)?;
        let (((task, kind), (dep, goal)), ((changed, obsolete), disks)) = fields;
        Ok(TaskOpen {
            task,
            kind,
            dep,
            goal,
            changed,
            obsolete,
            disks,
            source,
        })
    }
}

impl Coded for Begin {
    ghost use Rattle.bosh_entry.specs.Entry.{begin, is_begin, begin_at};

    ghost spelling = { λ _. begin };

    ghost fits = { λ _. is_begin };

    ghost reading = { λ _. begin_at };

    #[tactic(auto, unfolding(crate::specs::Entry::begin, crate::specs::Entry::is_begin))]
    fn write(&self, out: &mut Vec<u8>) -> Result<(), EntryFault> {
        self.n.write(out)?;
        self.task.write(out)?;
        u64::from(self.worker).write(out)?;
        self.owner.write(out)?;
        self.call.write(out)
    }

    #[tactic(auto, unfolding(crate::specs::Entry::begin_at, crate::specs::Pair::pair_at))]
    fn read(alloc: Global, format: Format, from: &mut Source) -> Result<Self, EntryFault> {
        let n = from.number()?;
        let task = from.number()?;
        let worker = worker(from)?;
        let (owner, call) = Coded::read(alloc, format, from)?;
        Ok(Begin {
            n,
            task,
            worker,
            owner,
            call,
        })
    }
}

impl Coded for End {
    ghost use Rattle.bosh_entry.specs.Entry.{end, is_end, end_at};

    ghost spelling = { λ _. end };

    ghost fits = { λ _. is_end };

    ghost reading = { λ _. end_at };

    #[tactic(auto, unfolding(crate::specs::Entry::end, crate::specs::Entry::is_end))]
    fn write(&self, out: &mut Vec<u8>) -> Result<(), EntryFault> {
        self.n.write(out)?;
        self.answer.write(out)
    }

    #[tactic(auto, unfolding(crate::specs::Entry::end_at))]
    fn read(alloc: Global, format: Format, from: &mut Source) -> Result<Self, EntryFault> {
        Ok(End {
            n: u64::read(alloc, format, from)?,
            answer: Answer::read(alloc, format, from)?,
        })
    }
}

impl Coded for Update {
    ghost use Rattle.bosh_entry.specs.Entry.{update, is_update, update_at};

    ghost spelling = { λ _. update };

    ghost fits = { λ _. is_update };

    ghost reading = { λ _. update_at };

    #[tactic(auto, unfolding(crate::specs::Entry::update, crate::specs::Entry::is_update))]
    fn write(&self, out: &mut Vec<u8>) -> Result<(), EntryFault> {
        self.task.write(out)?;
        self.inst.write(out)
    }

    #[tactic(auto, unfolding(crate::specs::Entry::update_at))]
    fn read(alloc: Global, format: Format, from: &mut Source) -> Result<Self, EntryFault> {
        Ok(Update {
            task: u64::read(alloc, format, from)?,
            inst: Inst::read(alloc, format, from)?,
        })
    }
}

impl Coded for TaskError {
    ghost use Rattle.bosh_entry.specs.Entry.{task_error, is_task_error, task_error_at};

    ghost spelling = { λ _. task_error };

    ghost fits = { is_task_error };

    ghost reading = { task_error_at };

    #[tactic(auto, unfolding(crate::specs::Entry::task_error, crate::specs::Entry::is_task_error))]
    fn write(&self, out: &mut Vec<u8>) -> Result<(), EntryFault> {
        self.task.write(out)?;
        self.cause.write(out)
    }

    #[tactic(auto, unfolding(crate::specs::Entry::task_error_at))]
    fn read(alloc: Global, format: Format, from: &mut Source) -> Result<Self, EntryFault> {
        Ok(TaskError {
            task: u64::read(alloc, format, from)?,
            cause: Failure::read(alloc, format, from)?,
        })
    }
}

impl Coded for Effect {
    ghost use Rattle.bosh_entry.specs.Entry.{effect, is_effect, effect_at};

    ghost spelling = { λ _. effect };

    ghost fits = { λ _. is_effect };

    ghost reading = { λ _. effect_at };

    #[tactic(auto, unfolding(crate::specs::Entry::effect, crate::specs::Entry::is_effect))]
    fn write(&self, out: &mut Vec<u8>) -> Result<(), EntryFault> {
        self.n.write(out)?;
        self.owner.write(out)?;
        self.dep.write(out)?;
        self.call.write(out)
    }

    #[tactic(auto, using(crate::proofs::StructLemmas::effect_parts))]
    fn read(alloc: Global, format: Format, from: &mut Source) -> Result<Self, EntryFault> {
        let fields = Coded::read(alloc, format, from)?;
        let ((n, owner), (dep, call)) = fields;
        Ok(Effect {
            n,
            owner,
            dep,
            call,
        })
    }
}

impl Coded for Write {
    ghost use Rattle.bosh_entry.specs.Entry.{write, is_write, write_at};

    ghost spelling = { λ _. write };

    ghost fits = { λ _. is_write };

    ghost reading = { λ _. write_at };

    #[tactic(auto, unfolding(crate::specs::Entry::write, crate::specs::Entry::is_write))]
    fn write(&self, out: &mut Vec<u8>) -> Result<(), EntryFault> {
        self.disk.write(out)?;
        self.text.write(out)
    }

    #[tactic(auto, unfolding(crate::specs::Entry::write_at))]
    fn read(alloc: Global, format: Format, from: &mut Source) -> Result<Self, EntryFault> {
        Ok(Write {
            disk: u64::read(alloc, format, from)?,
            text: Text::read(alloc, format, from)?,
        })
    }
}

impl Coded for Loss {
    ghost use Rattle.bosh_entry.specs.Entry.{loss, is_loss, loss_at};

    ghost spelling = { λ _. loss };

    ghost fits = { λ _. is_loss };

    ghost reading = { λ _. loss_at };

    #[tactic(auto, unfolding(crate::specs::Entry::loss, crate::specs::Entry::is_loss))]
    fn write(&self, out: &mut Vec<u8>) -> Result<(), EntryFault> {
        self.vm.write(out)?;
        self.whole.write(out)
    }

    #[tactic(auto, unfolding(crate::specs::Entry::loss_at))]
    fn read(alloc: Global, format: Format, from: &mut Source) -> Result<Self, EntryFault> {
        Ok(Loss {
            vm: u64::read(alloc, format, from)?,
            whole: bool::read(alloc, format, from)?,
        })
    }
}
