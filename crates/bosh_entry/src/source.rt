ghost use Rattle.std.specs.Prelude.{◌≡◌};
ghost use Rattle.bosh_entry.specs.Reading.{Gives, byte_at};
ghost use Rattle.bosh_entry.specs.Number.{number_at};
ghost use Rattle.bosh_entry.specs.Plain.{digest_at};

use crate::fault::EntryFault;
use bosh_base::Digest;

/// The bytes of a body that are not read yet.
#[derive(Drop)]
pub struct Source<'a> {
    pub rest: &'a [u8],
}

impl<'a> Source<'a> {
    pub fn byte(&mut self) -> Result<u8, EntryFault>
        ensures { Gives result self.new.rest.now (byte_at self.old.rest.now) }
    {
        let (byte, rest) = self.rest.split_first().ok_or(EntryFault::NotAnEntry)?;
        self.rest = rest;
        Ok(*byte)
    }

    #[tactic(auto, unfolding(crate::specs::Number::number_at))]
    pub fn number(&mut self) -> Result<u64, EntryFault>
        ensures { Gives result self.new.rest.now (number_at self.old.rest.now) }
    {
        let Some((bytes, rest)) = self.rest.split_first_chunk::<8>() else {
            return Err(EntryFault::NotAnEntry);
        };
        self.rest = rest;
        Ok(u64::from_be_bytes(*bytes))
    }

    #[tactic(auto, unfolding(crate::specs::Plain::digest_at))]
    pub fn digest(&mut self) -> Result<Digest, EntryFault>
        ensures { Gives result self.new.rest.now (digest_at self.old.rest.now) }
    {
        let Some((bytes, rest)) = self.rest.split_first_chunk::<32>() else {
            return Err(EntryFault::NotAnEntry);
        };
        self.rest = rest;
        Ok(Digest(*bytes))
    }
}
