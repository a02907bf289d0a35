//! Lines that are about no single deployment.
ghost use Rattle.std.specs.Prelude.{◌≡◌, ◌^◌, IfErr, IfOk};
ghost use Rattle.bosh_line_words.specs.Grammar.{IsRefused};
ghost use Rattle.bosh_line_words.specs.Words.{words_in};
ghost use Rattle.bosh_lines.specs.Forms.{IsRead, clean_up_form, cloud_form, compiled_form, delete_disk_form, disks_form, file_form, generate_form, releases_form, restart_form, task_form, tasks_form, together_form, update_cloud_config_form, upload_release_form, upload_stemcell_form};
ghost use Rattle.bosh_line_words.specs.declared.fault.LineFault.TheVariants.{Memory};

use crate::Command;
use crate::word::{All, Orphaned};
use bosh_base::{Stemcell, Text};
use bosh_line_words::{
    DiskWord, LineFault, NameWord, Number, Path, Rest, VersionOption, VersionWord, end, name_of,
    one, two,
};
use std::alloc::Global;

// The greatest number that a task may be asked for by.
const MOST_TASKS: u64 = 4_611_686_018_427_387_904;

pub(crate) fn copied(alloc: Global, bytes: &[u8]) -> Result<Text, LineFault>
    ensures ok { IfOk result (λ text. text ≡ bytes.now) }
    ensures refused { IfErr result (λ fault. fault ≡ Memory) }
{
    Ok(Text::from(Vec::from_slice(alloc, bytes)?))
}

#[tactic(auto, using(bosh_line_words::proofs::GrammarLemmas::reading))]
pub(crate) fn file(alloc: Global, rest: Rest<'_>) -> Result<Command, LineFault>
    ensures ok { IfOk result (IsRead file_form (words_in rest.entry)) }
    ensures refused { IfErr result (IsRefused file_form.places file_form.options (words_in rest.entry)) }
{
    let Path(path) = one(rest)?;
    let path = copied(alloc, path)?;
    Ok(Command::File { path })
}

#[tactic(auto, using(bosh_line_words::proofs::GrammarLemmas::reading))]
pub(crate) fn upload_release(alloc: Global, rest: Rest<'_>) -> Result<Command, LineFault>
    ensures ok { IfOk result (IsRead upload_release_form (words_in rest.entry)) }
    ensures refused { IfErr result (IsRefused upload_release_form.places upload_release_form.options (words_in rest.entry)) }
{
    let (Path(folder), VersionOption(version)) = two(rest)?;
    let folder = copied(alloc, folder)?;
    let version = copied(alloc, version)?;
    Ok(Command::UploadRelease { folder, version })
}

#[tactic(auto, using(bosh_line_words::proofs::GrammarLemmas::reading))]
pub(crate) fn upload_stemcell(alloc: Global, rest: Rest<'_>) -> Result<Command, LineFault>
    ensures ok { IfOk result (IsRead upload_stemcell_form (words_in rest.entry)) }
    ensures refused { IfErr result (IsRefused upload_stemcell_form.places upload_stemcell_form.options (words_in rest.entry)) }
{
    let (NameWord(os), VersionWord(version)) = two(rest)?;
    let os = name_of(alloc, os)?;
    let version = copied(alloc, version)?;
    Ok(Command::UploadStemcell(Stemcell { os, version }))
}

#[tactic(auto, using(bosh_line_words::proofs::GrammarLemmas::reading))]
pub(crate) fn update_cloud_config(alloc: Global, rest: Rest<'_>) -> Result<Command, LineFault>
    ensures ok { IfOk result (IsRead update_cloud_config_form (words_in rest.entry)) }
    ensures refused { IfErr result (IsRefused update_cloud_config_form.places update_cloud_config_form.options (words_in rest.entry)) }
{
    let Path(path) = one(rest)?;
    let path = copied(alloc, path)?;
    Ok(Command::UpdateCloudConfig { path })
}

#[tactic(auto, using(bosh_line_words::proofs::GrammarLemmas::reading))]
pub(crate) fn disks(rest: Rest<'_>) -> Result<Command, LineFault>
    ensures ok { IfOk result (IsRead disks_form (words_in rest.entry)) }
    ensures refused { IfErr result (IsRefused disks_form.places disks_form.options (words_in rest.entry)) }
{
    let Orphaned = one(rest)?;
    Ok(Command::OrphanedDisks)
}

#[tactic(auto, using(bosh_line_words::proofs::GrammarLemmas::reading))]
pub(crate) fn clean_up(rest: Rest<'_>) -> Result<Command, LineFault>
    ensures ok { IfOk result (IsRead clean_up_form (words_in rest.entry)) }
    ensures refused { IfErr result (IsRefused clean_up_form.places clean_up_form.options (words_in rest.entry)) }
{
    let All = one(rest)?;
    Ok(Command::CleanUp)
}

#[tactic(auto, using(bosh_line_words::proofs::GrammarLemmas::reading))]
pub(crate) fn delete_disk(rest: Rest<'_>) -> Result<Command, LineFault>
    ensures ok { IfOk result (IsRead delete_disk_form (words_in rest.entry)) }
    ensures refused { IfErr result (IsRefused delete_disk_form.places delete_disk_form.options (words_in rest.entry)) }
{
    let DiskWord(disk) = one(rest)?;
    Ok(Command::DeleteDisk { disk })
}

#[tactic(auto, using(bosh_line_words::proofs::GrammarLemmas::reading))]
pub(crate) fn task(rest: Rest<'_>) -> Result<Command, LineFault>
    ensures ok { IfOk result (IsRead task_form (words_in rest.entry)) }
    ensures refused { IfErr result (IsRefused task_form.places task_form.options (words_in rest.entry)) }
{
    let Number(task) = one::<Number<1, MOST_TASKS>>(rest)?;
    Ok(Command::Task { task })
}

#[tactic(auto, using(bosh_line_words::proofs::GrammarLemmas::reading))]
pub(crate) fn together(rest: Rest<'_>) -> Result<Command, LineFault>
    ensures ok { IfOk result (IsRead together_form (words_in rest.entry)) }
    ensures refused { IfErr result (IsRefused together_form.places together_form.options (words_in rest.entry)) }
{
    let Number(count) = one::<Number<1, 8>>(rest)?;
    Ok(Command::Together { count })
}

#[tactic(auto, using(bosh_line_words::proofs::GrammarLemmas::reading))]
pub(crate) fn generate(rest: Rest<'_>) -> Result<Command, LineFault>
    ensures ok { IfOk result (IsRead generate_form (words_in rest.entry)) }
    ensures refused { IfErr result (IsRefused generate_form.places generate_form.options (words_in rest.entry)) }
{
    let Number(instances) = one::<Number<1, 512>>(rest)?;
    Ok(Command::Generate { instances })
}

#[tactic(auto, using(bosh_line_words::proofs::GrammarLemmas::reading))]
pub(crate) fn tasks(rest: Rest<'_>) -> Result<Command, LineFault>
    ensures ok { IfOk result (IsRead tasks_form (words_in rest.entry)) }
    ensures refused { IfErr result (IsRefused tasks_form.places tasks_form.options (words_in rest.entry)) }
{
    end(rest)?;
    Ok(Command::Tasks)
}

#[tactic(auto, using(bosh_line_words::proofs::GrammarLemmas::reading))]
pub(crate) fn releases(rest: Rest<'_>) -> Result<Command, LineFault>
    ensures ok { IfOk result (IsRead releases_form (words_in rest.entry)) }
    ensures refused { IfErr result (IsRefused releases_form.places releases_form.options (words_in rest.entry)) }
{
    end(rest)?;
    Ok(Command::Releases)
}

#[tactic(auto, using(bosh_line_words::proofs::GrammarLemmas::reading))]
pub(crate) fn compiled(rest: Rest<'_>) -> Result<Command, LineFault>
    ensures ok { IfOk result (IsRead compiled_form (words_in rest.entry)) }
    ensures refused { IfErr result (IsRefused compiled_form.places compiled_form.options (words_in rest.entry)) }
{
    end(rest)?;
    Ok(Command::Compiled)
}

#[tactic(auto, using(bosh_line_words::proofs::GrammarLemmas::reading))]
pub(crate) fn restart(rest: Rest<'_>) -> Result<Command, LineFault>
    ensures ok { IfOk result (IsRead restart_form (words_in rest.entry)) }
    ensures refused { IfErr result (IsRefused restart_form.places restart_form.options (words_in rest.entry)) }
{
    end(rest)?;
    Ok(Command::Restart)
}

#[tactic(auto, using(bosh_line_words::proofs::GrammarLemmas::reading))]
pub(crate) fn cloud(rest: Rest<'_>) -> Result<Command, LineFault>
    ensures ok { IfOk result (IsRead cloud_form (words_in rest.entry)) }
    ensures refused { IfErr result (IsRefused cloud_form.places cloud_form.options (words_in rest.entry)) }
{
    end(rest)?;
    Ok(Command::Cloud)
}
