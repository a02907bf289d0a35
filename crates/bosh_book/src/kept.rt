ghost use Rattle.std.specs.Prelude.{◌≡◌, IfOk, IsTrue, false};
ghost use Rattle.bosh_book.specs.Appends.{Appends};
ghost use Rattle.bosh_journal.specs.Director.{is_directors};

use crate::faults::of_journal;
use bosh_asks::BookFault;
use bosh_base::Entry;
use bosh_journal::Journal;
use bosh_ports::Keeper;

/// Adds an entry at the end of a journal, and hands a value on once it is there.
// It is generic, since a planned change that is dropped where the store fails is dear to prove.
#[tactic(auto, using(crate::proofs::JournalLemmas::appended, crate::proofs::JournalLemmas::refused))]
pub(crate) fn kept_with<T: Drop, K: Keeper>(
    journal: &mut Journal<K>,
    entry: &Entry,
    value: T,
) -> Result<T, BookFault>
    requires directors { IsTrue (is_directors entry.now) }
    requires whole { journal.old.is_broken ≡ false }
    ensures value { IfOk result (λ kept. kept ≡ value) }
    ensures kept { Appends K.bodies K.faults result journal.old entry.now journal.new }
{
    match journal.append(entry) {
        Ok(()) => Ok(value),
        Err(fault) => Err(of_journal(fault)),
    }
}
