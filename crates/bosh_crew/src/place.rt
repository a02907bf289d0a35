use bosh_book::Permit;
use bosh_world::HeldCall;

/// What a worker has at hand between two of its steps. A permit, and a call that was performed, are never let go: they are
/// performed, settled or given up.
pub enum Place {
    Empty,
    /// A call that is to be made.
    Granted(Permit),
    /// A call that was performed and is to be settled.
    Held(HeldCall),
}
