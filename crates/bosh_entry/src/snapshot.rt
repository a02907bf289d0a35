ghost use Rattle.std.specs.Prelude.{◌≡◌};

use crate::coded::Coded;
use crate::fault::EntryFault;
use crate::format::Format;
use crate::later::before_later_list;
use crate::pair::{write_both, write_four};
use crate::source::Source;
use bosh_base::{BuiltKey, CompileRow, DepRow, Orphan, Seq, Snapshot};
use std::alloc::Global;

impl Coded for DepRow {
    ghost use Rattle.bosh_entry.specs.Snapshot.{dep_row, is_dep_row, dep_row_at};

    ghost spelling = { dep_row };

    ghost fits = { is_dep_row };

    ghost reading = { dep_row_at };

    #[tactic(auto, unfolding(crate::specs::Snapshot::dep_row, crate::specs::Snapshot::is_dep_row))]
    fn write(&self, out: &mut Vec<u8>) -> Result<(), EntryFault> {
        self.dep.write(out)?;
        self.goal.write(out)?;
        self.shared.write(out)
    }

    #[tactic(auto, using(crate::proofs::StructLemmas::dep_row_parts))]
    fn read(alloc: Global, format: Format, from: &mut Source) -> Result<Self, EntryFault> {
        let (fields, shared) = before_later_list(alloc, format, from)?;
        let (dep, goal) = fields;
        Ok(DepRow { dep, goal, shared })
    }
}

impl Coded for CompileRow {
    ghost use Rattle.bosh_entry.specs.Snapshot.{compile_row, is_compile_row, compile_row_at};

    ghost spelling = { λ _. compile_row };

    ghost fits = { λ _. is_compile_row };

    ghost reading = { λ _. compile_row_at };

    #[tactic(auto, unfolding(crate::specs::Snapshot::compile_row, crate::specs::Snapshot::is_compile_row))]
    fn write(&self, out: &mut Vec<u8>) -> Result<(), EntryFault> {
        write_four(&self.task, &self.slot, &self.dep, &self.make, out)?;
        write_both(&self.vm, &self.doubt, out)
    }

    #[tactic(auto, using(crate::proofs::StructLemmas::compile_row_parts))]
    fn read(alloc: Global, format: Format, from: &mut Source) -> Result<Self, EntryFault> {
        let fields = Coded::read(alloc, format, from)?;
        let (((task, slot), (dep, make)), (vm, doubt)) = fields;
        Ok(CompileRow {
            task,
            slot,
            dep,
            make,
            vm,
            doubt,
        })
    }
}

impl Coded for Orphan {
    ghost use Rattle.bosh_entry.specs.Snapshot.{orphan, is_orphan, orphan_at};

    ghost spelling = { λ _. orphan };

    ghost fits = { λ _. is_orphan };

    ghost reading = { λ _. orphan_at };

    #[tactic(auto, unfolding(crate::specs::Snapshot::orphan, crate::specs::Snapshot::is_orphan))]
    fn write(&self, out: &mut Vec<u8>) -> Result<(), EntryFault> {
        self.disk.write(out)?;
        self.want.write(out)?;
        self.inst.write(out)?;
        self.doubt.write(out)
    }

    #[tactic(auto, using(crate::proofs::StructLemmas::orphan_parts))]
    fn read(alloc: Global, format: Format, from: &mut Source) -> Result<Self, EntryFault> {
        let fields = Coded::read(alloc, format, from)?;
        let ((disk, want), (inst, doubt)) = fields;
        Ok(Orphan {
            disk,
            want,
            inst,
            doubt,
        })
    }
}

impl Coded for BuiltKey {
    ghost use Rattle.bosh_entry.specs.Snapshot.{built_key, is_built_key, built_key_at};

    ghost spelling = { λ _. built_key };

    ghost fits = { λ _. is_built_key };

    ghost reading = { λ _. built_key_at };

    #[tactic(auto, unfolding(crate::specs::Snapshot::built_key, crate::specs::Snapshot::is_built_key))]
    fn write(&self, out: &mut Vec<u8>) -> Result<(), EntryFault> {
        self.name.write(out)?;
        self.key.write(out)?;
        self.digest.write(out)
    }

    #[tactic(auto, using(crate::proofs::StructLemmas::built_key_parts))]
    fn read(alloc: Global, format: Format, from: &mut Source) -> Result<Self, EntryFault> {
        let fields = Coded::read(alloc, format, from)?;
        let ((name, key), digest) = fields;
        Ok(BuiltKey { name, key, digest })
    }
}

impl Coded for Snapshot {
    ghost use Rattle.bosh_entry.specs.Snapshot.{snapshot, is_snapshot, snapshot_at};

    ghost spelling = { snapshot };

    ghost fits = { is_snapshot };

    ghost reading = { snapshot_at };

    #[tactic(auto, unfolding(crate::specs::Snapshot::snapshot, crate::specs::Snapshot::is_snapshot))]
    fn write(&self, out: &mut Vec<u8>) -> Result<(), EntryFault> {
        write_four(
            &self.releases,
            &self.stemcells,
            &self.config,
            &self.deployments,
            out,
        )?;
        write_four(
            &self.rows,
            &self.compile_rows,
            &self.orphans,
            &self.built_keys,
            out,
        )?;
        write_both(&self.tasks, &self.last_call, out)
    }

    #[tactic(auto, using(crate::proofs::StructLemmas::snapshot_parts))]
    fn read(alloc: Global, format: Format, from: &mut Source) -> Result<Self, EntryFault> {
        let fields = Coded::read(alloc, format, from)?;
        let (
            (
                ((releases, stemcells), (config, deployments)),
                ((rows, compile_rows), (orphans, built_keys)),
            ),
            (tasks, last_call),
        ) = fields;
        Ok(Snapshot {
            releases,
            stemcells,
            config,
            deployments,
            rows,
            compile_rows,
            orphans,
            built_keys,
            tasks,
            last_call,
        })
    }
}
