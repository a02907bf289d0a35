//! Inputs at the limits of a session, and one past them.
use crate::repeated::followed;
use crate::session::{FIRST, FIRST_OUTPUT, WHOLE, run_session};
use std::alloc::Global;
use std::process::Abort;

// What a session comes to and writes.
fn ends_so(rt: &impl Abort, alloc: Global, session: &[u8], status: u8, written: &[u8]) -> bool {
    let ended = run_session(rt, alloc, &[], session, WHOLE, WHOLE);
    ended.0 == status && ended.1.as_slice() == written
}

#[test]
fn a_command_after_the_last_ends_the_session(rt: HostRuntime) {
    let alloc = rt.alloc();
    let refused = followed(&rt, alloc, b"", b"error: lines UnknownCommand\n", 200);
    let session = followed(&rt, alloc, b"", b"frob\n", 200);
    assert!(rt; ends_so(&rt, alloc, session.as_slice(), 1, refused.as_slice()));
    let session = followed(&rt, alloc, session.as_slice(), b"frob", 1);
    assert!(rt; ends_so(&rt, alloc, session.as_slice(), 6, refused.as_slice()));
}

#[test]
fn a_byte_too_many_ends_the_session(rt: HostRuntime) {
    let alloc = rt.alloc();
    let front = followed(&rt, alloc, FIRST, b"#", 1);
    let more = 8_388_608usize.saturating_sub(front.len());
    let session = followed(&rt, alloc, front.as_slice(), b"x", more);
    assert!(rt; ends_so(&rt, alloc, session.as_slice(), 0, FIRST_OUTPUT));
    let session = followed(&rt, alloc, session.as_slice(), b"x", 1);
    assert!(rt; ends_so(&rt, alloc, session.as_slice(), 6, FIRST_OUTPUT));
}

// A deploy of a manifest that a block keeps, of so many bytes and a line feed.
fn deploy_of(rt: &impl Abort, alloc: Global, size: usize) -> Vec<u8> {
    let file = followed(rt, alloc, b"file m.yml\n|", b"x", size);
    followed(rt, alloc, file.as_slice(), b"\n-d dep deploy m.yml\n", 1)
}

#[test]
fn a_file_has_at_most_a_mebibyte(rt: HostRuntime) {
    let alloc = rt.alloc();
    for (size, wanted) in [
        (1_048_575, b"error: manifest Missing name\n".as_slice()),
        (1_048_576, b"error: lines TooLarge\nerror: shelf Absent\n"),
    ] {
        let session = deploy_of(&rt, alloc, size);
        assert!(rt; ends_so(&rt, alloc, session.as_slice(), 1, wanted));
    }
}
