//! A session in memory, and what it came to.
use bosh_base::Text;
use bosh_ports::{MemKeeper, MemShelf, MemSink, MemSource, OpenGate};
use bosh_program::run;
use std::alloc::Global;
use std::process::Abort;

/// A stemcell is uploaded, a file is kept, and the stemcell is uploaded again.
pub(crate) const FIRST: &[u8] =
    b"upload-stemcell jammy 1.1\nfile a\n|x\nupload-stemcell jammy 1.1\n";

/// What it prints.
pub(crate) const FIRST_OUTPUT: &[u8] = b"stemcell jammy/1.1\nstemcell jammy/1.1 already there\n";

/// How the input or the output gives and takes: so many bytes at most a call, and which call fails.
#[derive(Clone, Copy)]
pub(crate) struct Device {
    pub(crate) piece: usize,
    pub(crate) fail: Option<u64>,
}

/// A device that gives or takes all at once and never fails.
pub(crate) const WHOLE: Device = Device {
    piece: 1 << 30,
    fail: None,
};

/// The status of a session, and what it wrote.
pub(crate) fn run_session(
    rt: &impl Abort,
    alloc: Global,
    words: &[Text],
    session: &[u8],
    input: Device,
    output: Device,
) -> (u8, Vec<u8>) {
    let bytes = session.to_vec(alloc).expect(rt, "memory");
    let mut source = MemSource::new(bytes, input.piece.max(1), input.fail);
    let mut sink = MemSink::new(alloc, output.piece.max(1), output.fail);
    let mut shelf = MemShelf::new(alloc);
    let ended = run(
        alloc,
        words,
        &mut source,
        &mut sink,
        &mut shelf,
        MemKeeper::new(alloc),
        MemKeeper::new(alloc),
        &OpenGate,
    );
    let written = sink.written().to_vec(alloc).expect(rt, "memory");
    (ended.close().code(), written)
}
