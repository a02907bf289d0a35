//! Inputs and outputs that come in pieces, and that fail.
use crate::session::{Device, FIRST, FIRST_OUTPUT, WHOLE, run_session};
use bosh_base::Text;
use std::slice;

#[test]
fn pieces_do_not_matter(rt: HostRuntime) {
    let alloc = rt.alloc();
    for read in [1, 2, 7, 100_000] {
        for write in [1, 5, 100_000] {
            let input = Device {
                piece: read,
                fail: None,
            };
            let output = Device {
                piece: write,
                fail: None,
            };
            let (status, written) = run_session(&rt, alloc, &[], FIRST, input, output);
            assert_eq!(rt; status, 0);
            assert_eq!(rt; written.as_slice(), FIRST_OUTPUT);
        }
    }
}

#[test]
fn a_failed_input_ends_the_session_after_the_settled_commands(rt: HostRuntime) {
    let alloc = rt.alloc();
    let done = b"stemcell jammy/1.1\n".as_slice();
    // The first line ends with byte 26, and the last with byte 62.
    let cases = [
        (1, b"".as_slice()),
        (26, b""),
        (27, done),
        (62, done),
        (63, FIRST_OUTPUT),
    ];
    for (call, wanted) in cases {
        let input = Device {
            piece: 1,
            fail: Some(call),
        };
        let (status, written) = run_session(&rt, alloc, &[], FIRST, input, WHOLE);
        assert_eq!(rt; status, 3, "call {call}");
        assert_eq!(rt; written.as_slice(), wanted, "call {call}");
    }
}

#[test]
fn a_failed_output_ends_the_session_with_a_front(rt: HostRuntime) {
    let alloc = rt.alloc();
    // The first reply takes four calls of five bytes.
    let cases = [
        (1, b"".as_slice()),
        (2, b"stemc"),
        (4, b"stemcell jammy/"),
        (5, b"stemcell jammy/1.1\n"),
    ];
    for (call, wanted) in cases {
        let output = Device {
            piece: 5,
            fail: Some(call),
        };
        let (status, written) = run_session(&rt, alloc, &[], FIRST, WHOLE, output);
        assert_eq!(rt; status, 4, "call {call}");
        assert_eq!(rt; written.as_slice(), wanted, "call {call}");
    }
}

#[test]
fn words_are_refused_before_anything_is_read(rt: HostRuntime) {
    let alloc = rt.alloc();
    let word = Text::from(b"--help".to_vec(alloc).expect(&rt, "memory"));
    let usage = b"usage: boshd [--threads=N]\n".as_slice();
    let failing = Device {
        piece: 5,
        fail: Some(2),
    };
    for (output, wanted) in [(WHOLE, usage), (failing, b"usage")] {
        let (status, written) = run_session(
            &rt,
            alloc,
            slice::from_ref(&word),
            FIRST,
            WHOLE,
            output,
        );
        assert_eq!(rt; status, 2);
        assert_eq!(rt; written.as_slice(), wanted);
    }
}
