use crate::SiteFault;
use bosh_ports::Keeper;

/// Two keepers that were not loaded, and why.
#[derive(Drop)]
pub struct Unloaded<K: Keeper, L: Keeper> {
    pub store: K,
    pub cloud: L,
    pub fault: SiteFault,
}
