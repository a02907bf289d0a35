ghost use Rattle.std.specs.Prelude.{◌≡◌, if◌then◌else◌, Ok, Err, Some, IfErr, IfOk, OnOk};
ghost use Rattle.bosh_entry.specs.Body.{Answers, entry_of, spelling};
ghost use Rattle.bosh_entry.specs.declared.fault.EntryFault.TheVariants.{NotAnEntry};
ghost use Rattle.bosh_journal.specs.Spelled.{entry_in};
ghost use Rattle.bosh_journal.specs.declared.fault.JournalFault.TheVariants.{Memory};

use crate::JournalFault;
use crate::director::is_directors;
use crate::format::Format;
use bosh_base::Entry;
use bosh_entry::{EntryFault, read, read_old, write};
use std::alloc::Global;

/// The entry of a director that a body spells.
pub(crate) fn entry_in(alloc: Global, format: Format, body: &[u8]) -> Result<Entry, EntryFault>
    ensures { Answers result (entry_in format body.now) }
{
    let entry = match format {
        Format::Older => read_old(alloc, body),
        Format::Present => read(alloc, body),
    };
    match entry {
        Ok(entry) => {
            let fits = is_directors(&entry);
            only(entry, fits)
        }
        Err(fault) => Err(fault),
    }
}

// It is generic, since an entry that is dropped where it does not fit is dear to prove.
fn only<T: Drop>(value: T, fits: bool) -> Result<T, EntryFault>
    ensures { result ≡ (if fits then Ok value else Err NotAnEntry) }
{
    if fits {
        Ok(value)
    } else {
        Err(EntryFault::NotAnEntry)
    }
}

/// The body of an entry, in the present format.
pub(crate) fn spelled(alloc: Global, entry: &Entry) -> Result<Vec<u8>, JournalFault>
    ensures spelled { IfOk result (λ body. body.items ≡ spelling entry.now) }
    ensures read_again { OnOk result (entry_of (spelling entry.now) ≡ Some entry.now) }
    ensures memory { IfErr result (λ fault. fault ≡ Memory) }
{
    match write(alloc, entry) {
        Ok(body) => Ok(body),
        Err(_) => Err(JournalFault::Memory),
    }
}
