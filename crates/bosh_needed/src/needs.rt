//! The works that are needed.
ghost use Rattle.std.specs.Prelude.{◌≡◌, IfOk};
ghost use Rattle.bosh_compile.specs.CompileOrder.{AfterDependencies};
ghost use Rattle.bosh_compile.specs.Level.{IsAcyclic};
ghost use Rattle.bosh_needed.specs.Marks.{IsWanted, is_wanted, wanted};
ghost use Rattle.bosh_needed.specs.Needed.{AreNeeded, StandOnce};

use crate::marks::{Marks, is_marked, needed_keys};
use bosh_base::{CopyFault, Copyable, Key, KeyWork, Seq};
use bosh_compile::{CompileFault, KeySet, levels};
use std::alloc::Global;

fn is_wanted<'a>(work: &'a KeyWork, marks: &Marks<'a>, compiled: &KeySet<'a>) -> bool
    ensures { result ≡ is_wanted marks.now compiled.now work.now }
{
    is_marked(&work.key, marks) && !compiled.has(&work.key)
}

fn wanted<'a>(
    alloc: Global,
    works: &'a [KeyWork],
    marks: &Marks<'a>,
    compiled: &KeySet<'a>,
) -> Result<Vec<KeyWork>, CopyFault>
    ensures { IfOk result (λ all. all.items ≡ wanted marks.now compiled.now works.now) }
{
    let mut all = Vec::new(alloc);
    for work in works {
        if is_wanted(work, marks, compiled) {
            all.push(work.copy(alloc)?)?;
        }
    }
    Ok(all)
}

// Of works in the order of compilation, those that are needed and not compiled.
fn wanted_of<'a>(
    alloc: Global,
    works: &'a [KeyWork],
    asked: &'a [Key],
    compiled: &'a [Key],
) -> Result<Vec<KeyWork>, CopyFault>
    requires { AfterDependencies works.now }
    ensures { IfOk result (λ all. IsWanted works.now asked.now compiled.now all.items) }
{
    let marks = needed_keys(alloc, works, asked)?;
    let compiled = KeySet::of(alloc, compiled)?;
    wanted(alloc, works, &marks, &compiled)
}

/// Of works, of which no two have one key, those that are asked for by their keys and all that these need compiled before,
/// but for what is compiled; in the order of compilation.
pub fn needed(
    alloc: Global,
    works: &[KeyWork],
    asked: &[Key],
    compiled: &[Key],
) -> Result<Seq<KeyWork>, CompileFault>
    requires acyclic { IsAcyclic works.now }
    requires once { StandOnce works.now }
    ensures { IfOk result (AreNeeded works.now asked.now compiled.now) }
{
    let ordered = levels(alloc, works)?;
    let works = ordered.as_slice();
    let wanted = wanted_of(alloc, works, asked, compiled)?;
    levels(alloc, wanted.as_slice())
}
