ghost use Rattle.std.specs.Prelude.{◌≡◌};
ghost use Rattle.bosh_base.specs.Plan.{is_dynamic, is_static};

use bosh_base::{Addr, DiskWant, Name, NetPlan, Seq, Text};

/// A type of machines.
#[derive(Drop)]
pub struct VmKind {
    pub name: Name,
    /// Its cloud properties, as compact JSON; `null` where there are none.
    pub properties: Text,
}

/// A type of persistent disks.
#[derive(Drop)]
pub struct DiskKind {
    pub name: Name,
    pub want: DiskWant,
}

/// Where packages are compiled.
#[derive(Drop)]
pub struct Compilation {
    /// How many machines compile at once, 1 to 64.
    pub workers: u32,
    /// The availability zone of the machines.
    pub az: Name,
    pub vm_type: Name,
    pub network: Name,
}

/// A checked cloud config.
#[derive(Drop)]
pub struct Config {
    /// The availability zones.
    pub azs: Seq<Name>,
    /// The names of the networks.
    pub networks: Seq<Name>,
    /// Their subnets, in the order of the networks.
    pub plan: NetPlan,
    pub vm_types: Seq<VmKind>,
    pub disk_types: Seq<DiskKind>,
    pub compilation: Compilation,
}

impl Config {
    /// Whether an address of a network in an availability zone is given to whoever asks for any.
    pub fn is_dynamic(&self, net: &Name, az: &Name, addr: Addr) -> bool
        ensures { result ≡ is_dynamic self.now.plan net.now az.now addr }
    {
        self.plan.is_dynamic(net, az, addr)
    }

    /// Whether it is given to those alone that ask for it by number.
    pub fn is_static(&self, net: &Name, az: &Name, addr: Addr) -> bool
        ensures { result ≡ is_static self.now.plan net.now az.now addr }
    {
        self.plan.is_static(net, az, addr)
    }
}
