ghost use Rattle.std.specs.Prelude.{◌≡◌};

use crate::coded::Coded;
use crate::fault::EntryFault;
use crate::format::Format;
use crate::source::Source;
use bosh_base::{Addr, Name, NetAddr};
use std::alloc::Global;

impl Coded for Addr {
    ghost use Rattle.bosh_entry.specs.Addr.{addr, is_addr, addr_at};

    ghost spelling = { λ _. addr };

    ghost fits = { λ _. is_addr };

    ghost reading = { λ _. addr_at };

    #[tactic(auto, unfolding(crate::specs::Addr::addr, crate::specs::Addr::is_addr))]
    fn write(&self, out: &mut Vec<u8>) -> Result<(), EntryFault> {
        self.0.write(out)
    }

    #[tactic(auto, unfolding(crate::specs::Addr::addr_at))]
    fn read(alloc: Global, format: Format, from: &mut Source) -> Result<Self, EntryFault> {
        Ok(Addr(u32::read(alloc, format, from)?))
    }
}

impl Coded for NetAddr {
    ghost use Rattle.bosh_entry.specs.Addr.{net_addr, is_net_addr, net_addr_at};

    ghost spelling = { λ _. net_addr };

    ghost fits = { λ _. is_net_addr };

    ghost reading = { λ _. net_addr_at };

    #[tactic(auto, unfolding(crate::specs::Addr::net_addr, crate::specs::Addr::is_net_addr))]
    fn write(&self, out: &mut Vec<u8>) -> Result<(), EntryFault> {
        self.net.write(out)?;
        self.addr.write(out)
    }

    #[tactic(auto, unfolding(crate::specs::Addr::net_addr_at))]
    fn read(alloc: Global, format: Format, from: &mut Source) -> Result<Self, EntryFault> {
        Ok(NetAddr {
            net: Name::read(alloc, format, from)?,
            addr: Addr::read(alloc, format, from)?,
        })
    }
}
