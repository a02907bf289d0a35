use crate::{Groups, Line, MachineName};
use bosh_base::{Inst, Key};

/// The lines and the groups of a task cross threads: whoever works on a site may be another thread
/// than the one that opened it.
pub fn what_crosses_threads() {
    is_sent::<Line<Inst>>();
    is_sent::<Line<Key>>();
    is_sent::<Line<MachineName>>();
    is_sent::<Line<u64>>();
    is_sent::<Groups>();
}

const fn is_sent<T: Send>() {}
