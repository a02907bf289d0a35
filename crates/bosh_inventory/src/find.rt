ghost use Rattle.std.specs.Prelude.{◌≡◌};
ghost use Rattle.bosh_base.specs.CallStep.{found_disk, found_vm};

use crate::inventory::Inventory;

impl Inventory {
    /// The least machine that a call created and that is there.
    pub fn found_vm(&self, agent: u64) -> Option<u64>
        ensures { result ≡ found_vm self.now agent }
    {
        self.tables.vms.created_by(agent)
    }

    /// The least disk that a call created and that is there.
    pub fn found_disk(&self, tag: u64) -> Option<u64>
        ensures { result ≡ found_disk self.now tag }
    {
        self.tables.disks.created_by(tag)
    }
}
