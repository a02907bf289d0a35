// Where a call may be held up between its intent and its performance.

/// Is told of each call between its intent and its performance, and may hold it up. It promises nothing.
pub trait Gate {
    fn pass(&self, call: u64);
}

/// A gate that holds nothing up.
#[derive(Clone, Copy, Debug)]
pub struct OpenGate;

impl Gate for OpenGate {
    fn pass(&self, _call: u64) {}
}
