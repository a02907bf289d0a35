/// Why there is no lock.
#[derive(Clone, Copy, Debug, PartialEq, Eq)]
pub enum LockFault {
    Memory,
}
