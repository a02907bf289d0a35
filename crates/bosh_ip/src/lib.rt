//! IPv4 addresses, networks and ranges of addresses, read from the texts that a cloud config and a
//! manifest write them in.
#![tactic(auto)]

mod address;
mod bytes;
mod fault;
mod laws;
mod network;
mod range;

pub use address::{add_addr, parse_addr, show_addr};
pub use fault::IpFault;
pub use laws::{refused_spells_none, shown_reads_back, spelled_once};
pub use network::{Cidr, contains, parse_cidr};
pub use range::{Span, parse_range};
