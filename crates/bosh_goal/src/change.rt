use bosh_base::State;

/// What a task of one instance changes in the goal.
#[derive(Clone, Copy)]
pub enum Change {
    /// Its machine is made anew.
    Fresh,
    /// It is to have this state.
    To(State),
    /// Nothing: what differs from the goal is put right.
    Same,
}
