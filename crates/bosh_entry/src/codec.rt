ghost use Rattle.std.specs.Prelude.{◌≡◌, Some, OnOk, IfOk, IfErr, IsErrOf};
ghost use Rattle.bosh_entry.specs.Body.{whole, whole_by, Answers, spelling, IsEntry, entry_of, older_spelling, IsOlderEntry, older_entry_of};
ghost use Rattle.bosh_entry.specs.declared.fault.EntryFault.TheVariants.{NotAnEntry, Memory};

use crate::coded::Coded;
use crate::fault::EntryFault;
use crate::format::Format;
use crate::source::Source;
use bosh_base::Entry;
use std::alloc::Global;

/// The bytes that stand for an entry in a store, in the present format.
#[tactic(auto, using(crate::proofs::BodyLemmas::whole_again))]
pub fn write(alloc: Global, entry: &Entry) -> Result<Vec<u8>, EntryFault>
    ensures spelled { IfOk result (λ body. body.items ≡ spelling entry.now) }
    ensures fits { OnOk result (IsEntry entry.now) }
    ensures read_again { IfOk result (λ body. entry_of body.items ≡ Some entry.now) }
    ensures err { IfErr result (λ fault. fault ≡ Memory) }
{
    let mut out = Vec::new(alloc);
    entry.write(&mut out)?;
    Ok(out)
}

/// The value of a whole body. It is generic, since an entry that is dropped where bytes are left is dear to prove.
fn whole_in<T: Coded>(alloc: Global, format: Format, body: &[u8]) -> Result<T, EntryFault>
    ensures { Answers result (whole_by (T.reading format) body.now) }
{
    let mut from = Source { rest: body };
    let value = T::read(alloc, format, &mut from)?;
    if !from.rest.is_empty() {
        return Err(EntryFault::NotAnEntry);
    }
    Ok(value)
}

#[tactic(auto, unfolding(crate::specs::Body::whole))]
fn entry_in(alloc: Global, format: Format, body: &[u8]) -> Result<Entry, EntryFault>
    ensures { Answers result (whole format body.now) }
{
    whole_in(alloc, format, body)
}

/// The entry that a body spells in the present format, all of its bytes.
pub fn read(alloc: Global, body: &[u8]) -> Result<Entry, EntryFault>
    ensures found { IfOk result (λ entry. IsEntry entry × (body.now ≡ spelling entry)) }
    ensures none { IsErrOf result NotAnEntry → (entry : Entry) → IsEntry entry → body.now ≡ spelling entry → ⊥ }
    ensures exact { Answers result (entry_of body.now) }
{
    entry_in(alloc, Format::Present, body)
}

/// The entry that a body spells in the older format. What that format has not is absent: a source, the calls of a
/// task, whether a machine is lost, and shared links.
pub fn read_old(alloc: Global, body: &[u8]) -> Result<Entry, EntryFault>
    ensures found { IfOk result (λ entry. IsOlderEntry entry × (body.now ≡ older_spelling entry)) }
    ensures none { IsErrOf result NotAnEntry → (entry : Entry) → IsOlderEntry entry → body.now ≡ older_spelling entry → ⊥ }
    ensures exact { Answers result (older_entry_of body.now) }
{
    entry_in(alloc, Format::Older, body)
}
