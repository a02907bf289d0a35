//! How many cases of each call passed and failed.
use std::alloc::{AllocError, Global};
use std::io;

/// How many cases of a call passed and failed.
#[derive(Drop)]
struct Count {
    call: String,
    passed: u32,
    failed: u32,
}

/// The counts of each call that had a case, in the order of their first cases.
#[derive(Drop)]
pub(crate) struct Tally {
    counts: Vec<Count>,
}

impl Count {
    fn add(&mut self, has_passed: bool) {
        if has_passed {
            self.passed = self.passed.saturating_add(1);
        } else {
            self.failed = self.failed.saturating_add(1);
        }
    }
}

impl Tally {
    pub(crate) fn new(alloc: Global) -> Self {
        Tally {
            counts: Vec::new(alloc),
        }
    }

    // The place of the count of a call.
    fn place_of(&self, call: &str) -> Option<usize> {
        self.counts
            .iter()
            .position(|count| count.call.as_str() == call)
    }

    /// Counts a case.
    pub(crate) fn add(
        &mut self,
        alloc: Global,
        call: &str,
        has_passed: bool,
    ) -> Result<(), AllocError> {
        match self.place_of(call) {
            Some(place) => {
                if let Some(count) = self.counts.get_mut(place) {
                    count.add(has_passed);
                }
            }
            None => self.counts.push(first_count(alloc, call, has_passed)?)?,
        }
        Ok(())
    }

    fn passed(&self) -> u32 {
        self.counts
            .iter()
            .fold(0, |sum: u32, count| sum.saturating_add(count.passed))
    }

    fn failed(&self) -> u32 {
        self.counts
            .iter()
            .fold(0, |sum: u32, count| sum.saturating_add(count.failed))
    }

    /// Whether there were cases, and all passed.
    pub(crate) fn has_passed(&self) -> bool {
        self.passed() > 0 && self.failed() == 0
    }

    /// Prints the counts of each call, and of all together.
    pub(crate) fn print(&self, rt: &impl Print) -> io::Result<()> {
        for count in &self.counts {
            println!(rt;
                "{}: {} passed, {} failed",
                count.call, count.passed, count.failed
            )?;
        }
        println!(rt; "{} passed, {} failed", self.passed(), self.failed())
    }
}

fn first_count(alloc: Global, call: &str, has_passed: bool) -> Result<Count, AllocError> {
    let mut count = Count {
        call: String::from_str(alloc, call)?,
        passed: 0,
        failed: 0,
    };
    count.add(has_passed);
    Ok(count)
}
