//! Numbers for places, so that those that need one another have one number, and others a greater one than what they need.
//! They are found in one walk (Tarjan, "Depth-first search and linear graph algorithms", 1972). Nothing rests on how they
//! are found: who takes them checks them.

use bosh_base::Seq;
use std::alloc::{AllocError, Global};

// A place on the way from where the walk began, and which of its needs is next.
#[derive(Clone, Copy)]
struct Visit {
    place: usize,
    next: usize,
}

// A walk over a graph. All numbers are counted from 1, and 0 stands for none yet.
#[derive(Drop)]
struct Walk<'a> {
    graph: &'a [Seq<usize>],
    // In which order places were met.
    met: Vec<usize>,
    // The first met place that is known to be needed by a place, of those without a number.
    low: Vec<usize>,
    numbers: Vec<usize>,
    // Places that were met and have no number, as they were met.
    waiting: Vec<usize>,
    way: Vec<Visit>,
    last_met: usize,
    last_number: usize,
    // Where the walk begins next.
    start: usize,
}

fn value_at(values: &[usize], place: usize) -> usize {
    values.get(place).copied().unwrap_or(0)
}

fn put(values: &mut [usize], place: usize, value: usize) {
    if let Some(here) = values.get_mut(place) {
        *here = value;
    }
}

fn lower(values: &mut [usize], place: usize, value: usize) {
    if let Some(here) = values.get_mut(place) {
        *here = value.min(*here);
    }
}

impl Walk<'_> {
    fn enter(&mut self, place: usize) -> Result<(), AllocError> {
        self.last_met = self.last_met.saturating_add(1);
        put(&mut self.met, place, self.last_met);
        put(&mut self.low, place, self.last_met);
        self.waiting.push(place)?;
        self.way.push(Visit { place, next: 0 })?;
        Ok(())
    }

    fn begin(&mut self) -> Result<(), AllocError> {
        let place = self.start;
        self.start = self.start.saturating_add(1);
        if value_at(&self.met, place) == 0 {
            self.enter(place)?;
        }
        Ok(())
    }

    fn look_at(&mut self, place: usize, need: usize) -> Result<(), AllocError> {
        let met = value_at(&self.met, need);
        if met == 0 {
            return self.enter(need);
        }
        if value_at(&self.numbers, need) == 0 {
            lower(&mut self.low, place, met);
        }
        Ok(())
    }

    // Gives a number to a place and to those that were met after it and have none.
    fn give_number(&mut self, place: usize) {
        self.last_number = self.last_number.saturating_add(1);
        while let Some(other) = self.waiting.pop() {
            put(&mut self.numbers, other, self.last_number);
            if other == place {
                return;
            }
        }
    }

    fn leave(&mut self, place: usize) {
        self.way.pop();
        let low = value_at(&self.low, place);
        if low == value_at(&self.met, place) {
            self.give_number(place);
        }
        if let Some(before) = self.way.last() {
            lower(&mut self.low, before.place, low);
        }
    }

    fn step(&mut self) -> Result<(), AllocError> {
        let Some(visit) = self.way.last_mut() else {
            return self.begin();
        };
        let Visit { place, next } = *visit;
        visit.next = next.saturating_add(1);
        match self
            .graph
            .get(place)
            .and_then(|needs| needs.as_slice().get(next))
        {
            Some(need) => self.look_at(place, *need),
            None => {
                self.leave(place);
                Ok(())
            }
        }
    }
}

fn new_walk(alloc: Global, graph: &[Seq<usize>]) -> Result<Walk<'_>, AllocError> {
    let met = vec![in alloc; 0; graph.len()]?;
    let low = vec![in alloc; 0; graph.len()]?;
    let numbers = vec![in alloc; 0; graph.len()]?;
    Ok(Walk {
        graph,
        met,
        low,
        numbers,
        waiting: Vec::new(alloc),
        way: Vec::new(alloc),
        last_met: 0,
        last_number: 0,
        start: 0,
    })
}

// How many steps a walk has: one for each need, and three for each place.
fn steps_of(graph: &[Seq<usize>]) -> usize {
    graph.iter().fold(0, |steps, needs| {
        needs.len().saturating_add(3).saturating_add(steps)
    })
}

/// A number for each place. Those of places that need one another, at once or by others, are the same, and each other
/// place has a greater number than those that it needs.
pub(crate) fn numbers_of(alloc: Global, graph: &[Seq<usize>]) -> Result<Vec<usize>, AllocError> {
    let mut walk = new_walk(alloc, graph)?;
    for _ in 0..steps_of(graph) {
        walk.step()?;
    }
    let Walk { numbers, .. } = walk;
    Ok(numbers)
}
