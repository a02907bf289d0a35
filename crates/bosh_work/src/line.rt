ghost use Rattle.std.specs.Prelude.{◌≡◌};
ghost use Rattle.bosh_work.specs.Line.{finished_line, given_line, taken_line};

use bosh_base::Seq;
use bosh_progress::Queue;

/// Items of a task in order, and which of them are left.
#[derive(Drop)]
pub struct Line<T> {
    pub items: Seq<T>,
    pub queue: Queue,
}

// A cut of the proof by types: what holds many lines is sent as they are.
unsafe impl<T: Send> Send for Line<T> {}

impl<T> Line<T> {
    /// Somebody works on the item at a place, where one is told.
    pub fn take(&mut self, place: Option<usize>)
        ensures { self.new ≡ taken_line self.old place }
    {
        if let Some(place) = place {
            self.queue.take(place);
        }
    }

    /// Nobody does any more.
    pub fn give(&mut self, place: Option<usize>)
        ensures { self.new ≡ given_line self.old place }
    {
        if let Some(place) = place {
            self.queue.give(place);
        }
    }

    /// The item at a place is finished, where one is told.
    pub fn finish(&mut self, place: Option<usize>)
        ensures { self.new ≡ finished_line self.old place }
    {
        if let Some(place) = place {
            self.queue.finish(place);
        }
    }
}
