ghost use Rattle.std.specs.Prelude.{◌≡◌};

use crate::coded::Coded;
use crate::fault::EntryFault;
use crate::format::Format;
use crate::pair::{write_both, write_four};
use crate::source::Source;
use bosh_base::Offer;
use std::alloc::Global;

impl Coded for Offer {
    ghost use Rattle.bosh_entry.specs.Offer.{offer, is_offer, offer_at};

    ghost spelling = { λ _. offer };

    ghost fits = { λ _. is_offer };

    ghost reading = { λ _. offer_at };

    #[tactic(auto, unfolding(crate::specs::Offer::offer, crate::specs::Offer::is_offer))]
    fn write(&self, out: &mut Vec<u8>) -> Result<(), EntryFault> {
        write_four(&self.joint, &self.kind, &self.public_name, &self.addrs, out)?;
        write_both(&self.listed, &self.properties, out)
    }

    #[tactic(auto, using(crate::proofs::StructLemmas::offer_parts))]
    fn read(alloc: Global, format: Format, from: &mut Source) -> Result<Self, EntryFault> {
        let fields = Coded::read(alloc, format, from)?;
        let (((joint, kind), (public_name, addrs)), (listed, properties)) = fields;
        Ok(Offer {
            joint,
            kind,
            public_name,
            addrs,
            listed,
            properties,
        })
    }
}
