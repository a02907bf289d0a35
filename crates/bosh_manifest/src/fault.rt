ghost use Rattle.std.specs.Prelude.{◌≡◌};
ghost use Rattle.bosh_manifest.specs.Answer.{fault_of};
ghost use Rattle.bosh_manifest.specs.declared.fault.ManifestFault.TheVariants.{Memory};

use bosh_base::Text;
use bosh_fields::FieldFault;

/// Why a node is no manifest of a deployment. A key is that of the field at fault.
#[derive(Drop)]
pub enum ManifestFault {
    /// A required key is absent, a list that needs an item has none, or of several networks not exactly one has the
    /// gateway among its defaults.
    Missing { key: Text },
    /// A value, or an item of a list, is of another kind than its key takes.
    WrongKind { key: Text },
    /// A name, or the alias of a stemcell, stands twice in one list.
    Repeated { name: Text },
    /// The value asks for what is not offered.
    Unsupported { key: Text },
    /// A number of instances, a share or a watch time is none.
    BadUpdate { key: Text },
    /// A number is outside its bounds, or a list is too long.
    Limit { key: Text },
    /// The manifest is that of the deployment of this name.
    NameDiffers { name: Text },
    /// There is no memory for the answer.
    Memory,
}

impl From<FieldFault> for ManifestFault {
    ghost from_gives = { λ given fault. fault ≡ fault_of given };

    fn from(fault: FieldFault) -> Self {
        match fault {
            FieldFault::Missing { key } => ManifestFault::Missing { key },
            FieldFault::WrongKind { key } => ManifestFault::WrongKind { key },
            FieldFault::Repeated { name } => ManifestFault::Repeated { name },
            FieldFault::Malformed { key } => ManifestFault::BadUpdate { key },
            FieldFault::Unsupported { key } => ManifestFault::Unsupported { key },
            FieldFault::Limit { key } => ManifestFault::Limit { key },
            FieldFault::Memory => ManifestFault::Memory,
        }
    }
}
