ghost use Rattle.std.specs.Prelude.{◌≡◌, []};
ghost use Rattle.bosh_entry.specs.Reading.{Gives};
ghost use Rattle.bosh_entry.specs.Later.{later_at};
ghost use Rattle.bosh_entry.specs.List.{list_at};
ghost use Rattle.bosh_entry.specs.Pair.{pair_at};

use crate::coded::Coded;
use crate::fault::EntryFault;
use crate::format::Format;
use crate::source::Source;
use bosh_base::Seq;
use std::alloc::Global;

/// A field that the older format has not: there it is `absent`.
#[tactic(auto, unfolding(crate::specs::Later::later_at))]
pub fn later<T: Coded>(
    alloc: Global,
    format: Format,
    from: &mut Source,
    absent: T,
) -> Result<T, EntryFault>
    ensures { Gives result from.new.rest.now (later_at absent (T.reading format) format from.old.rest.now) }
{
    match format {
        Format::Older => Ok(absent),
        Format::Present => T::read(alloc, format, from),
    }
}

/// Fields, and after them one that the older format has not.
#[tactic(auto, unfolding(crate::specs::Pair::pair_at))]
pub fn before_later<A: Coded, T: Coded>(
    alloc: Global,
    format: Format,
    from: &mut Source,
    absent: T,
) -> Result<(A, T), EntryFault>
    ensures { Gives result from.new.rest.now (pair_at (A.reading format) (later_at absent (T.reading format) format) from.old.rest.now) }
{
    let fields = A::read(alloc, format, from)?;
    let last = later(alloc, format, from, absent)?;
    Ok((fields, last))
}

/// Fields, and after them two that the older format has not.
#[tactic(auto, unfolding(crate::specs::Pair::pair_at))]
pub fn before_both_later<A: Coded, S: Coded, T: Coded>(
    alloc: Global,
    format: Format,
    from: &mut Source,
    first_absent: S,
    second_absent: T,
) -> Result<((A, S), T), EntryFault>
    ensures { Gives result from.new.rest.now (pair_at (pair_at (A.reading format) (later_at first_absent (S.reading format) format)) (later_at second_absent (T.reading format) format) from.old.rest.now) }
{
    let fields = before_later(alloc, format, from, first_absent)?;
    let last = later(alloc, format, from, second_absent)?;
    Ok((fields, last))
}

/// Fields, and after them a list that the older format has not: there it is empty.
pub fn before_later_list<A: Coded, T: Coded>(
    alloc: Global,
    format: Format,
    from: &mut Source,
) -> Result<(A, Seq<T>), EntryFault>
    ensures { Gives result from.new.rest.now (pair_at (A.reading format) (later_at [] (list_at (T.reading format)) format) from.old.rest.now) }
{
    before_later(alloc, format, from, Seq::new(alloc))
}
