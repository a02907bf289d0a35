//! Where a case stands.
use std::fmt;

/// A line of a file, counted from 1.
#[derive(Clone, Copy)]
pub(crate) struct Source<'a> {
    pub(crate) file: &'a str,
    pub(crate) line: usize,
}

impl fmt::Display for Source<'_> {
    fn fmt<W: fmt::Write>(&self, f: &mut fmt::Formatter<W>) -> fmt::Result {
        let Source { file, line } = *self;
        write!(f, "{file}:{line}")
    }
}
