ghost use Rattle.std.specs.Prelude.{◌≡◌};
ghost use Rattle.bosh_base.specs.Plan.{is_within, is_in_some, is_listed, is_reserved, has_address, has_static, has_dynamic, is_of, is_static, is_dynamic};

use crate::{Addr, Band, Name, Seq};

/// A subnet of a network of the cloud config.
#[derive(Drop)]
pub struct Subnet {
    /// The network.
    pub net: Name,
    pub range: Band,
    pub gateway: Option<Addr>,
    /// Given to nobody.
    pub reserved: Seq<Band>,
    /// Given to those alone that ask for them by number.
    pub fixed: Seq<Band>,
    /// The availability zones that it lies in.
    pub azs: Seq<Name>,
}

/// All subnets of the cloud config.
#[derive(Drop)]
pub struct NetPlan {
    pub subnets: Seq<Subnet>,
}

fn is_within(addr: Addr, band: Band) -> bool
    ensures { result ≡ is_within addr band }
{
    band.first.0 <= addr.0 && addr.0 <= band.last.0
}

fn is_in_some(addr: Addr, bands: &Seq<Band>) -> bool
    ensures { result ≡ is_in_some addr bands.now }
{
    bands.iter().any(|band| is_within(addr, *band))
}

fn is_listed(name: &Name, names: &Seq<Name>) -> bool
    ensures { result ≡ is_listed name.now names.now }
{
    names.iter().any(|listed| *listed == *name)
}

impl Subnet {
    fn has_address(&self, net: &Name, az: &Name, addr: Addr) -> bool
        ensures { result ≡ has_address self.now net.now az.now addr }
    {
        self.net == *net && is_listed(az, &self.azs) && is_within(addr, self.range)
    }

    fn is_reserved(&self, addr: Addr) -> bool
        ensures { result ≡ is_reserved self.now addr }
    {
        is_in_some(addr, &self.reserved)
            || addr == self.range.first
            || addr == self.range.last
            || self.gateway == Some(addr)
    }

    fn has_static(&self, net: &Name, az: &Name, addr: Addr) -> bool
        ensures { result ≡ has_static self.now net.now az.now addr }
    {
        self.has_address(net, az, addr) && !self.is_reserved(addr) && is_in_some(addr, &self.fixed)
    }

    fn has_dynamic(&self, net: &Name, az: &Name, addr: Addr) -> bool
        ensures { result ≡ has_dynamic self.now net.now az.now addr }
    {
        self.has_address(net, az, addr) && !self.is_reserved(addr) && !is_in_some(addr, &self.fixed)
    }
}

impl NetPlan {
    /// Whether an address is one of a network in an availability zone, given to somebody or not.
    pub fn is_of(&self, net: &Name, az: &Name, addr: Addr) -> bool
        ensures { result ≡ is_of self.now net.now az.now addr }
    {
        self.subnets
            .iter()
            .any(|subnet| subnet.has_address(net, az, addr))
    }

    /// Whether it is one that is given to those alone that ask for it by number.
    pub fn is_static(&self, net: &Name, az: &Name, addr: Addr) -> bool
        ensures { result ≡ is_static self.now net.now az.now addr }
    {
        self.subnets
            .iter()
            .any(|subnet| subnet.has_static(net, az, addr))
    }

    /// Whether it is one that is given to whoever asks for any.
    pub fn is_dynamic(&self, net: &Name, az: &Name, addr: Addr) -> bool
        ensures { result ≡ is_dynamic self.now net.now az.now addr }
    {
        self.subnets
            .iter()
            .any(|subnet| subnet.has_dynamic(net, az, addr))
    }
}
