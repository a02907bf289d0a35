//! What is recorded: what is uploaded, the deployments with their goals, instances, compile machines and disks, which
//! packages are compiled, and the tasks with what is left of them. Tables, with what is read from them.
#![tactic(auto)]

mod copying;
mod deployments;
mod fault;
mod instances;
mod keys;
mod machines;
mod next_key;
mod order;
mod orphans;
mod places;
mod records;
mod table;
mod tasks;
mod works;

pub use copying::copies;
pub use fault::RecordsFault;
pub use instances::{Instance, Instances};
pub use keys::{KeyState, Keys};
pub use machines::Machine;
pub use orphans::LooseDisk;
pub use records::{Records, Since};
pub use table::Table;
