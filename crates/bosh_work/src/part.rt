ghost use Rattle.std.specs.Prelude.{◌≡◌};
ghost use Rattle.bosh_work.specs.Part.{no_part};

/// The name of a compile machine: its task, and its slot from 0 on.
#[derive(Clone, Copy, PartialEq, Eq, PartialOrd, Ord)]
pub struct MachineName {
    pub task: u64,
    pub slot: u32,
}

/// The place of a changed instance in a task: its group, by its place among those with changes, and its place there.
#[derive(Clone, Copy)]
pub struct GroupPlace {
    pub group: usize,
    pub place: usize,
}

/// Where an instance stands in the open task of its deployment: its places among those that are asked first whether
/// they answer, those that are to go, and those that change.
#[derive(Clone, Copy)]
pub struct Part {
    pub ping: Option<usize>,
    pub leaving: Option<usize>,
    pub change: Option<GroupPlace>,
}

impl Part {
    /// The task has nothing to do for it.
    pub fn none() -> Part
        ensures { result ≡ no_part }
    {
        Part {
            ping: None,
            leaving: None,
            change: None,
        }
    }
}

/// Where an owner stands in the open task that has something to do for it.
#[derive(Clone, Copy)]
pub struct Places {
    pub part: Part,
    pub sweep: Option<usize>,
    pub deleting: Option<usize>,
}
