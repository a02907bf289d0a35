//! Inputs in pieces, at their limits, and that fail.
use crate::repeated::followed;
use bosh_input::{Input, InputFault};
use bosh_lines::{Command, LineFault};
use bosh_ports::MemSource;
use std::alloc::Global;
use std::process::Abort;

const SESSION: &[u8] =
    b"# a comment\n\r\nfile a\r\n|x\r\n|\n\n|y\n!cloud\r\n-d dep deploy a\nfile b\n|z";

fn source(
    rt: &impl Abort,
    alloc: Global,
    bytes: &[u8],
    piece: usize,
    fail: Option<u64>,
) -> MemSource {
    let piece = piece.max(1);
    MemSource::new(bytes.to_vec(alloc).expect(rt, "memory"), piece, fail)
}

// How many commands a session gives, and how it ends.
fn read_all(
    rt: &impl Abort,
    alloc: Global,
    bytes: &[u8],
    piece: usize,
    fail: Option<u64>,
) -> (usize, Option<InputFault>) {
    let mut source = source(rt, alloc, bytes, piece, fail);
    let mut input = Input::new(alloc).expect(rt, "memory");
    for count in 0..300usize {
        match input.next(&mut source) {
            Ok(Some(_)) => {}
            Ok(None) => return (count, None),
            Err(fault) => return (count, Some(fault)),
        }
    }
    (300, None)
}

// The word of a command, none for a line that is no command.
fn word_of(asked: &Result<Command, LineFault>) -> &'static [u8] {
    match asked {
        Ok(Command::File { .. }) => b"file",
        Ok(Command::Deploy(_)) => b"deploy",
        Ok(Command::Cloud) => b"cloud",
        _ => b"",
    }
}

// Whether the next command has this word and this block.
fn gives(input: &mut Input, source: &mut MemSource, word: &[u8], block: &[u8]) -> bool {
    match input.next(source) {
        Ok(Some(request)) => {
            word_of(&request.asked) == word && request.block.as_slice() == block
        }
        _ => false,
    }
}

#[test]
fn gives_commands_in_pieces(rt: HostRuntime) {
    let alloc = rt.alloc();
    for piece in [1, 2, 3, 1000] {
        let mut source = source(&rt, alloc, SESSION, piece, None);
        let mut input = Input::new(alloc).expect(&rt, "memory");
        let wants: [(&[u8], &[u8]); 5] = [
            (b"file", b"x\r\n\n"),
            (b"", b""),
            (b"cloud", b""),
            (b"deploy", b""),
            (b"file", b"z\n"),
        ];
        for (word, block) in wants {
            assert!(rt; gives(&mut input, &mut source, word, block));
        }
        assert!(rt; matches!(input.next(&mut source), Ok(None)));
    }
}

#[test]
fn ends_where_the_source_fails(rt: HostRuntime) {
    let alloc = rt.alloc();
    let cases = [
        (1, 0),
        (22, 0),
        (29, 0),
        (30, 1),
        (32, 1),
        (33, 2),
        (37, 2),
        (40, 2),
        (41, 3),
        (45, 3),
        (46, 3),
    ];
    for (call, count) in cases {
        let read = read_all(&rt, alloc, SESSION, 1, Some(call));
        assert_eq!(rt; read, (count, Some(InputFault::Source)), "{call}");
    }
}

#[test]
fn ends_where_there_are_too_many_commands(rt: HostRuntime) {
    let alloc = rt.alloc();
    let commands = followed(&rt, alloc, b"", b"!cloud\n", 200);
    let bytes = followed(&rt, alloc, commands.as_slice(), b"\r\n# a comment", 1);
    let read = read_all(&rt, alloc, bytes.as_slice(), 1000, None);
    assert_eq!(rt; read, (200, None));
    let bytes = followed(&rt, alloc, bytes.as_slice(), b"\nx", 1);
    let read = read_all(&rt, alloc, bytes.as_slice(), 1000, None);
    assert_eq!(rt; read, (200, Some(InputFault::Limit)));
}

#[test]
fn ends_where_there_are_too_many_bytes(rt: HostRuntime) {
    let alloc = rt.alloc();
    let bytes = followed(&rt, alloc, b"!cloud\n", b"#", 8_388_601);
    let read = read_all(&rt, alloc, bytes.as_slice(), 100_000, None);
    assert_eq!(rt; read, (1, None));
    let bytes = followed(&rt, alloc, bytes.as_slice(), b"\n", 1);
    let read = read_all(&rt, alloc, bytes.as_slice(), 100_000, None);
    assert_eq!(rt; read, (1, Some(InputFault::Limit)));
}
