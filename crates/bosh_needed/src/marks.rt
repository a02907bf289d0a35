//! Keys that are marked as needed.
ghost use Rattle.std.specs.Prelude.{◌≡◌, ◌||◌, ◌&&◌, IfOk, OnOk};
ghost use Rattle.bosh_base.specs.declared.key.Key.{Key};
ghost use Rattle.bosh_compile.specs.CompileOrder.{AfterDependencies};
ghost use Rattle.bosh_compile.specs.KeySet.{has_key};
ghost use Rattle.bosh_compile.specs.Readiness.{is_among, same_key};
ghost use Rattle.bosh_needed.specs.Marks.{AreMarked};

use bosh_base::{Key, KeyWork};
use std::alloc::{AllocError, Global};
use std::collections::BTreeMap;

/// The marked keys.
pub(crate) type Marks<'a> = BTreeMap<&'a Key, ()>;

fn mark<'a>(key: &'a Key, marks: &mut Marks<'a>) -> Result<(), AllocError>
    ensures { OnOk result ((other : Key) → has_key marks.new other ≡ (same_key key.now other || has_key marks.old other)) }
{
    marks.insert(key, ())?;
    Ok(())
}

fn mark_all<'a>(keys: &'a [Key], marks: &mut Marks<'a>) -> Result<(), AllocError>
    ensures { OnOk result ((other : Key) → has_key marks.new other ≡ (is_among other keys.now || has_key marks.old other)) }
{
    for key in keys {
        mark(key, marks)?;
    }
    Ok(())
}

pub(crate) fn is_marked<'a>(key: &'a Key, marks: &Marks<'a>) -> bool
    ensures { result ≡ has_key marks.now key.now }
{
    marks.contains_key(&key)
}

// What a work needs is marked, where the work is.
fn follow<'a>(work: &'a KeyWork, marks: &mut Marks<'a>) -> Result<(), AllocError>
    ensures { OnOk result ((other : Key) → has_key marks.new other
        ≡ ((has_key marks.old work.now.key && is_among other work.now.deps) || has_key marks.old other)) }
{
    if is_marked(&work.key, marks) {
        mark_all(work.deps.as_slice(), marks)?;
    }
    Ok(())
}

/// The keys that are needed: those asked for, and what the works of marked ones need. A work is looked at after all that
/// need it, so each is looked at once.
pub(crate) fn needed_keys<'a>(
    alloc: Global,
    works: &'a [KeyWork],
    asked: &'a [Key],
) -> Result<Marks<'a>, AllocError>
    requires { AfterDependencies works.now }
    ensures { IfOk result (λ marks. AreMarked works.now asked.now marks 0) }
{
    let mut marks = BTreeMap::new(alloc);
    mark_all(asked, &mut marks)?;
    for place in (0..works.len()).rev() {
        follow(&works[place], &mut marks)?;
    }
    Ok(marks)
}
