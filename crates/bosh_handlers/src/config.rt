//! The cloud config is set.
ghost use Rattle.bosh_transcript.specs.Past.{Proceeds};

use crate::ends::refused_by_site;
use bosh_answers::{AnswerFault, Files, read_file, refused};
use bosh_base::Reply;
use bosh_cloudcfg::check;
use bosh_desk::Desk;
use bosh_ports::Shelf;
use bosh_yaml::{Node, read};
use std::alloc::Global;

/// Sets the cloud config that the file of a path is.
pub(crate) fn update_config<F: Shelf, D: Desk>(
    alloc: Global,
    path: &[u8],
    files: &Files,
    shelf: &mut F,
    desk: &mut D,
) -> Result<Reply, AnswerFault>
    ensures proceeds { Proceeds (D.past desk.old) (D.past desk.new) }
    ensures kept { D.is_good desk.old → D.is_good desk.new }
{
    match read_file(alloc, files, shelf, path) {
        Ok(text) => set_config(alloc, text.as_slice(), desk),
        Err(fault) => refused(alloc, fault),
    }
}

/// Sets the cloud config that a text is.
pub fn set_config<D: Desk>(alloc: Global, text: &[u8], desk: &mut D) -> Result<Reply, AnswerFault>
    ensures proceeds { Proceeds (D.past desk.old) (D.past desk.new) }
    ensures kept { D.is_good desk.old → D.is_good desk.new }
{
    match read(alloc, text) {
        Ok(node) => set_checked(alloc, text, &node, desk),
        Err(fault) => refused(alloc, fault),
    }
}

fn set_checked<D: Desk>(
    alloc: Global,
    text: &[u8],
    node: &Node,
    desk: &mut D,
) -> Result<Reply, AnswerFault>
    ensures proceeds { Proceeds (D.past desk.old) (D.past desk.new) }
    ensures kept { D.is_good desk.old → D.is_good desk.new }
{
    match check(alloc, node) {
        Ok(config) => {
            drop(config);
            put(alloc, text, desk)
        }
        Err(fault) => refused(alloc, fault),
    }
}

fn put<D: Desk>(alloc: Global, text: &[u8], desk: &mut D) -> Result<Reply, AnswerFault>
    ensures proceeds { Proceeds (D.past desk.old) (D.past desk.new) }
    ensures kept { D.is_good desk.old → D.is_good desk.new }
{
    match desk.set_config(text) {
        Ok(()) => Ok(Reply::ConfigUpdated),
        Err(fault) => refused_by_site(alloc, fault),
    }
}
