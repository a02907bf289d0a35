ghost use Rattle.std.specs.Prelude.{◌≡◌};

use crate::coded::Coded;
use crate::fault::EntryFault;
use crate::format::Format;
use crate::source::Source;
use bosh_base::Method;
use std::alloc::Global;

impl Coded for Method {
    ghost use Rattle.bosh_entry.specs.Method.{method, is_method, method_at};

    ghost spelling = { λ _. method };

    ghost fits = { λ _. is_method };

    ghost reading = { λ _. method_at };

    #[tactic(auto, unfolding(crate::specs::Method::method, crate::specs::Method::is_method))]
    fn write(&self, out: &mut Vec<u8>) -> Result<(), EntryFault> {
        out.push(self.place())?;
        Ok(())
    }

    #[tactic(auto, unfolding(crate::specs::Method::method_at))]
    fn read(_alloc: Global, _format: Format, from: &mut Source) -> Result<Self, EntryFault> {
        match from.byte()? {
            0 => Ok(Method::CreateVm),
            1 => Ok(Method::DeleteVm),
            2 => Ok(Method::HasVm),
            3 => Ok(Method::FindVm),
            4 => Ok(Method::CreateDisk),
            5 => Ok(Method::DeleteDisk),
            6 => Ok(Method::HasDisk),
            7 => Ok(Method::FindDisk),
            8 => Ok(Method::AttachDisk),
            9 => Ok(Method::DetachDisk),
            10 => Ok(Method::GetDisks),
            11 => Ok(Method::Ping),
            12 => Ok(Method::GetState),
            13 => Ok(Method::Apply),
            14 => Ok(Method::Start),
            15 => Ok(Method::Drain),
            16 => Ok(Method::Stop),
            17 => Ok(Method::MountDisk),
            18 => Ok(Method::UnmountDisk),
            19 => Ok(Method::ListDisk),
            20 => Ok(Method::MigrateDisk),
            21 => Ok(Method::CompilePackage),
            _ => Err(EntryFault::NotAnEntry),
        }
    }
}
