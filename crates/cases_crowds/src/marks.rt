ghost use Rattle.std.specs.Prelude.{◌≡◌, ◌∷◌, ◌++◌, [], OnErr, OnOk, length};

use bosh_lock::Chronicle;
use std::alloc::{AllocError, Global};

/// What a thread notes: its number, and how often it did before.
#[derive(Clone, Copy, PartialEq, Eq, Debug)]
pub struct Mark {
    pub thread: u64,
    pub count: u64,
}

/// All notes, in the order in which they were made.
#[derive(Drop)]
pub struct Marks {
    marks: Vec<Mark>,
}

impl Chronicle for Marks {
    type Item = Mark;

    ghost items = { λ marks. marks.marks.items };

    fn length(&self) -> u64 {
        self.marks.len() as u64
    }
}

impl Marks {
    /// No notes, with room for so many.
    pub fn with_room(alloc: Global, count: u64) -> Result<Marks, AllocError> {
        let marks = Vec::with_capacity(alloc, usize::try_from(count).unwrap_or(0))?;
        Ok(Marks { marks })
    }

    pub fn all(&self) -> &[Mark]
        ensures { result.now ≡ self.now.marks.items }
    {
        self.marks.as_slice()
    }

    pub fn note(&mut self, mark: Mark) -> Result<(), AllocError>
        ensures noted { OnOk result (self.new.marks.items ≡ self.old.marks.items ++ mark ∷ []) }
        ensures refused { OnErr result (self.new.marks.items ≡ self.old.marks.items) }
    {
        match self.marks.push(mark) {
            Ok(()) => Ok(()),
            Err(_) => Err(AllocError),
        }
    }
}
