use crate::{Answer, Entry, Inst, Loss, Reply, Seq, Text};

/// Why a site halted.
#[derive(Clone, Copy, Debug, PartialEq, Eq)]
pub enum Cause {
    Stop,
    /// The director's store failed.
    Store,
    /// The cloud's store failed.
    CloudStore,
}

/// A call was performed.
#[derive(Drop)]
pub struct Did {
    /// The number of the call.
    pub n: u64,
    /// It changed the cloud.
    pub effect: bool,
    pub answer: Answer,
}

/// A running job wrote to its disk.
#[derive(Drop)]
pub struct Wrote {
    pub inst: Inst,
    pub text: Text,
}

/// What a restart found.
#[derive(Drop)]
pub struct Stop {
    /// The entry whose append was not answered, where it was kept.
    pub kept: Option<Entry>,
    /// Which open calls had their effect, by number.
    pub took: Seq<u64>,
    /// The write or loss whose append was not answered, where it was kept.
    pub wrote: Option<Entry>,
}

/// A command was answered.
#[derive(Drop)]
pub struct Said {
    /// Its number in the session, from 1 on.
    pub command: u32,
    pub reply: Reply,
}

/// One step of a site.
#[derive(Drop)]
pub enum Move {
    /// An entry was made durable.
    Note(Entry),
    Did(Did),
    Wrote(Wrote),
    Halt(Cause),
    Stop(Stop),
    Lost(Loss),
    Said(Said),
}
