//! Why a case was not answered.
use std::alloc::{AllocError, AllocFailed};
use std::fmt;

/// Why a case was not answered.
#[derive(Clone, Copy, Debug)]
pub enum CaseFault {
    /// The line is no case.
    NoCase,
    /// No call has the name.
    NoSuchCall,
    /// What is given has not the form that the call takes.
    Form,
    /// There is no clock.
    Clock,
    /// Memory ran out.
    Memory,
}

impl fmt::Display for CaseFault {
    fn fmt<W: fmt::Write>(&self, f: &mut fmt::Formatter<W>) -> fmt::Result {
        f.write_str(match self {
            CaseFault::NoCase => "the line is no case",
            CaseFault::NoSuchCall => "there is no such call",
            CaseFault::Form => "what is given has not the form of the call",
            CaseFault::Clock => "there is no clock",
            CaseFault::Memory => "out of memory",
        })
    }
}

impl From<AllocError> for CaseFault {
    fn from(_: AllocError) -> Self {
        CaseFault::Memory
    }
}

impl<T: Drop> From<AllocFailed<T>> for CaseFault {
    fn from(_: AllocFailed<T>) -> Self {
        CaseFault::Memory
    }
}

impl From<bosh_base::CopyFault> for CaseFault {
    fn from(_: bosh_base::CopyFault) -> Self {
        CaseFault::Memory
    }
}

impl From<bosh_base::OfFault> for CaseFault {
    fn from(fault: bosh_base::OfFault) -> Self {
        match fault {
            bosh_base::OfFault::NotOne => CaseFault::Form,
            bosh_base::OfFault::Memory => CaseFault::Memory,
        }
    }
}

impl From<bosh_yaml::CopyFault> for CaseFault {
    fn from(_: bosh_yaml::CopyFault) -> Self {
        CaseFault::Memory
    }
}

impl From<bosh_yaml::OfFault> for CaseFault {
    fn from(fault: bosh_yaml::OfFault) -> Self {
        match fault {
            bosh_yaml::OfFault::NotOne => CaseFault::Form,
            bosh_yaml::OfFault::Memory => CaseFault::Memory,
        }
    }
}

/// A text that is given as YAML and is none has not the form of its call.
impl From<bosh_yaml::ReadFault> for CaseFault {
    fn from(fault: bosh_yaml::ReadFault) -> Self {
        match fault {
            bosh_yaml::ReadFault::Memory => CaseFault::Memory,
            _ => CaseFault::Form,
        }
    }
}
