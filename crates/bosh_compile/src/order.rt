ghost use Rattle.std.specs.Prelude.{◌≡◌, map, IfOk};
ghost use Rattle.std.specs.List.Sorted.{IsPermutation};
ghost use Rattle.bosh_compile.specs.CompileOrder.{IsInCompileOrder};
ghost use Rattle.bosh_compile.specs.Level.{IsAcyclic};
ghost use Rattle.bosh_compile.specs.Leveled.{with_level, work_of};
ghost use Rattle.bosh_compile.specs.Rounds.{last_level};

use crate::CompileFault;
use crate::level::levels_of;
use bosh_base::{Copyable, Key, KeyWork, Name, Seq};
use std::alloc::Global;

/// A work with its level, in the order of compilation.
#[derive(PartialEq, Eq, PartialOrd, Ord, Drop)]
struct Leveled {
    level: usize,
    name: Name,
    key: Key,
    deps: Seq<Key>,
}

fn with_levels(alloc: Global, works: &[KeyWork]) -> Result<Vec<Leveled>, CompileFault>
    ensures { IfOk result (λ all. all.items ≡ map (with_level (last_level works.now)) works.now) }
{
    let levels = levels_of(alloc, works)?;
    let levels = levels.as_slice();
    let mut all = Vec::with_capacity(alloc, works.len())?;
    for (place, work) in works.iter().enumerate() {
        let work = work.copy(alloc)?;
        all.push(Leveled {
            level: levels[place],
            name: work.name,
            key: work.key,
            deps: work.deps,
        })?;
    }
    Ok(all)
}

fn works_of(alloc: Global, all: Vec<Leveled>) -> Result<Seq<KeyWork>, CompileFault>
    ensures { IfOk result (λ works. works ≡ map work_of all.items) }
{
    let mut works = Vec::with_capacity(alloc, all.len())?;
    for leveled in all {
        works.push(KeyWork {
            name: leveled.name,
            key: leveled.key,
            deps: leveled.deps,
        })?;
    }
    Ok(Seq::from(works))
}

/// The works in the order in which they may be compiled. A dependency that is not among them does not count.
pub fn levels(alloc: Global, works: &[KeyWork]) -> Result<Seq<KeyWork>, CompileFault>
    requires { IsAcyclic works.now }
    ensures same_works { IfOk result (IsPermutation works.now) }
    ensures ordered { IfOk result IsInCompileOrder }
{
    let mut all = with_levels(alloc, works)?;
    all.sort()?;
    works_of(alloc, all)
}
