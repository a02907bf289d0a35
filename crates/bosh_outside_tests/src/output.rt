//! That a whole output is written in pieces and a failed one is cut, and which file of a path is found.
use bosh_answers::{Files, KeptFile};
use bosh_base::Text;
use bosh_ports::MemSink;
use bosh_transcript::{Status, write_all};
use std::alloc::Global;
use std::process::Abort;

fn text(rt: &impl Abort, alloc: Global, bytes: &[u8]) -> Text {
    Text::from(bytes.to_vec(alloc).expect(rt, "memory"))
}

#[test]
fn writes_to_the_end_or_a_front(rt: HostRuntime) {
    let alloc = rt.alloc();
    let mut sink = MemSink::new(alloc, 2, None);
    assert_eq!(rt; write_all(&mut sink, b"abcde"), Ok(()));
    assert_eq!(rt; sink.written(), b"abcde".as_slice());
    let mut failing = MemSink::new(alloc, 2, Some(2));
    assert_eq!(rt; write_all(&mut failing, b"abcde"), Err(Status::Sink));
    assert_eq!(rt; failing.written(), b"ab".as_slice());
}

#[test]
fn the_last_file_of_a_path_is_found(rt: HostRuntime) {
    let alloc = rt.alloc();
    let mut files = Files::new(alloc);
    for (path, kept) in [(b"a", b"1"), (b"b", b"2"), (b"a", b"3")] {
        let file = KeptFile {
            path: text(&rt, alloc, path),
            text: text(&rt, alloc, kept),
        };
        assert!(rt; files.put(file).is_ok());
    }
    for (path, kept) in [(b"a", b"3"), (b"b", b"2")] {
        let found = files.get(path).expect(&rt, "a file");
        assert_eq!(rt; found.as_slice(), kept.as_slice());
    }
    assert!(rt; files.get(b"c").is_none());
}
