//! Child programs that are asked one question each: the trait, and a stand-in in memory.
#![tactic(auto)]

mod mem_spawner;
mod outputs;
mod spawner;

pub use mem_spawner::MemSpawner;
pub use outputs::Outputs;
pub use spawner::{MOST_BYTES, SpawnFault, Spawner};
