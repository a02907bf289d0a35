ghost use Rattle.std.specs.Prelude.{◌≡◌, IfOk, fold, map};
ghost use Rattle.std.specs.List.{enumerate_from};
ghost use Rattle.bosh_plan.specs.WorkBy.{key_line, with_key};

use crate::lines::full;
use bosh_base::{Copyable, Key, KeyWork};
use bosh_records::{Keys, RecordsFault};
use bosh_work::Line;
use std::alloc::Global;

/// The keys of a goal, of which those that are compiled already are not left.
pub(crate) fn key_line(
    alloc: Global,
    works: &[KeyWork],
    keys: &Keys,
) -> Result<Line<Key>, RecordsFault>
    ensures { IfOk result (λ line. line ≡ key_line keys.now works.now) }
{
    let mut line = full(alloc, keys_of(alloc, works)?)?;
    finish_compiled(&mut line, works, keys);
    Ok(line)
}

fn keys_of(alloc: Global, works: &[KeyWork]) -> Result<Vec<Key>, RecordsFault>
    ensures { IfOk result (λ found. found.items ≡ map (λ work. work.key) works.now) }
{
    let mut found = Vec::new(alloc);
    for work in works {
        found.push(work.key.copy(alloc)?)?;
    }
    Ok(found)
}

fn finish_compiled(line: &mut Line<Key>, works: &[KeyWork], keys: &Keys)
    ensures { line.new ≡ fold (with_key keys.now) line.old (enumerate_from 0 works.now) }
{
    for (place, work) in works.iter().enumerate() {
        finish_where_compiled(line, place, work, keys);
    }
}

fn finish_where_compiled(line: &mut Line<Key>, place: usize, work: &KeyWork, keys: &Keys)
    ensures { line.new ≡ with_key keys.now line.old (place, work.now) }
{
    if keys.is_compiled(&work.key) {
        line.finish(Some(place));
    }
}
