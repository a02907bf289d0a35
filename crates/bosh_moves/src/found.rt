ghost use Rattle.std.specs.Prelude.{◌≡◌, find, IfOk, Ok};
ghost use Rattle.std.specs.List.{filter_map};
ghost use Rattle.std.specs.Option.{option_copied};
ghost use Rattle.bosh_moves.specs.Found.{call_of, is_written, stop_of};

use bosh_base::{CopyFault, Copyable, Entry, Seq, Stop};
use std::alloc::Global;

/// What a restart found: an entry that was kept, where one was, and effects that no move tells of.
pub(crate) fn found(
    alloc: Global,
    kept: Option<&Entry>,
    effects: &[Entry],
) -> Result<Stop, CopyFault>
    ensures stop { IfOk result (λ stop. stop ≡ stop_of (option_copied kept.entry) effects.now) }
{
    let took = took(alloc, effects);
    let parts = both(
        both(copied(alloc, kept), copied(alloc, written(effects))),
        took,
    )?;
    let ((kept, wrote), took) = parts;
    Ok(Stop { kept, took, wrote })
}

// It is generic, since entries that are let go are dear to prove.
fn both<T: Drop, U: Drop>(
    one: Result<T, CopyFault>,
    other: Result<U, CopyFault>,
) -> Result<(T, U), CopyFault>
    ensures both { IfOk result (λ it. (one ≡ Ok it.0) × (other ≡ Ok it.1)) }
{
    let one = one?;
    Ok((one, other?))
}

fn copied(alloc: Global, entry: Option<&Entry>) -> Result<Option<Entry>, CopyFault>
    ensures copied { IfOk result (λ copy. copy ≡ option_copied entry.entry) }
{
    match entry {
        Some(entry) => Ok(Some(entry.copy(alloc)?)),
        None => Ok(None),
    }
}

// The calls of effects.
fn took(alloc: Global, effects: &[Entry]) -> Result<Seq<u64>, CopyFault>
    ensures calls { IfOk result (λ calls. calls ≡ filter_map call_of effects.now) }
{
    let calls: Vec<u64> = effects
        .iter()
        .filter_map(|effect| call_of(effect))
        .collect(alloc)?;
    Ok(Seq::from(calls))
}

fn call_of(entry: &Entry) -> Option<u64>
    ensures { result ≡ call_of entry.now }
{
    match entry {
        Entry::Effect(effect) => Some(effect.n),
        _ => None,
    }
}

// The first write or loss among what was done.
fn written(effects: &[Entry]) -> Option<&Entry>
    ensures { option_copied result ≡ find is_written effects.now }
{
    effects.iter().find(|entry| is_written(entry))
}

fn is_written(entry: &Entry) -> bool
    ensures { result ≡ is_written entry.now }
{
    matches!(entry, Entry::Write(_) | Entry::Lost(_))
}
