//! The stand-ins in memory, and the adapters over what a test stands in for, or over the system.
use bosh_ports::{
    Bodies, FolderShelf, KeepFault, Keeper, MemKeeper, MemShelf, MemSink, MemSource, Put, Reading,
    Rig, Rigged, Shelf, ShelfFault, Sink, Source, Taken, Writing,
};
use std::alloc::Global;
use std::io::{Error, ErrorKind, Read, Write};
use std::process::Abort;
use std::rt::Files;
use std::{fs, io};

/// Takes once, and gives the front of the buffer.
fn takes<S: Source>(rt: &impl Abort, source: &mut S, wanted: Taken) -> u8 {
    let mut buf = [0u8; 2];
    assert_eq!(rt; source.take(&mut buf), wanted);
    buf[0]
}

fn puts<S: Sink>(rt: &impl Abort, sink: &mut S, wanted: Put) {
    assert_eq!(rt; sink.put(b"xyz"), wanted);
}

fn holds<S: Shelf>(alloc: Global, shelf: &mut S, path: &[u8], bytes: &[u8]) -> bool {
    match shelf.read(alloc, path) {
        Ok(found) => found.as_slice() == bytes,
        Err(_) => false,
    }
}

fn answers_file<S: Shelf>(alloc: Global, shelf: &mut S, path: &[u8], fault: ShelfFault) -> bool {
    match shelf.read(alloc, path) {
        Ok(_) => false,
        Err(found) => found == fault,
    }
}

/// How many paths are listed below a folder, and whether the path is the first.
fn lists<S: Shelf>(alloc: Global, shelf: &mut S, folder: &[u8], first: &[u8]) -> usize {
    match shelf.list(alloc, folder) {
        Ok(paths) if paths.as_slice()[0].as_slice() == first => paths.len(),
        _ => 0,
    }
}

fn answers_folder<S: Shelf>(
    alloc: Global,
    shelf: &mut S,
    folder: &[u8],
    fault: ShelfFault,
) -> bool {
    match shelf.list(alloc, folder) {
        Ok(_) => false,
        Err(found) => found == fault,
    }
}

#[test]
fn pieces_come_in_turn_and_one_call_fails(rt: HostRuntime) {
    let mut source = MemSource::new(b"abc".to_vec(rt.alloc()).expect(&rt, "memory"), 2, Some(2));
    let front = takes(&rt, &mut source, Taken::Bytes(2));
    assert_eq!(rt; front, b'a');
    takes(&rt, &mut source, Taken::Failed);
    let rest = takes(&rt, &mut source, Taken::Bytes(1));
    assert_eq!(rt; rest, b'c');
    takes(&rt, &mut source, Taken::End);
}

#[test]
fn pieces_go_in_turn_and_one_call_fails(rt: HostRuntime) {
    let mut sink = MemSink::new(rt.alloc(), 2, Some(2));
    puts(&rt, &mut sink, Put::Took(2));
    puts(&rt, &mut sink, Put::Failed);
    puts(&rt, &mut sink, Put::Took(2));
    puts(&rt, &mut sink, Put::Took(2));
    assert_eq!(rt; sink.written(), b"xyxyxy".as_slice());
    assert_eq!(rt; (sink.faults(), sink.starved()), (1, 0));
}

fn breaks_its_append(keeper: &mut Rigged<MemKeeper>, how: Rig) -> bool {
    keeper.rig(2, how).is_ok()
        && keeper.append(b"one").is_ok()
        && keeper.append(b"two") == Err(KeepFault::Failed)
        && keeper.append(b"three") == Err(KeepFault::Broken)
        && keeper.sprung() == Some(how)
}

fn keeps(keeper: &mut Rigged<MemKeeper>, kept: u64) -> bool {
    match keeper.reload() {
        Ok(()) => keeper.len() == kept,
        Err(_) => false,
    }
}

#[test]
fn each_rig_breaks_its_append(rt: HostRuntime) {
    let alloc = rt.alloc();
    for (how, kept) in [
        (Rig::FailLost, 1),
        (Rig::FailKept, 2),
        (Rig::StopBefore, 1),
        (Rig::StopAfter, 2),
    ] {
        let mut keeper = Rigged::new(alloc, MemKeeper::new(alloc));
        assert!(rt; breaks_its_append(&mut keeper, how) && keeps(&mut keeper, kept));
    }
}

fn is_body(alloc: Global, keeper: &mut MemKeeper, body: &[u8]) -> bool {
    if keeper.len() != 1 {
        return false;
    }
    match keeper.read(alloc, 0) {
        Ok(found) => found.as_slice() == body,
        Err(_) => false,
    }
}

fn put_and_spoil(alloc: Global, keeper: &mut MemKeeper, list: &Bodies) -> bool {
    if keeper.replace(list).is_err() {
        return false;
    }
    if keeper.len() != 1 {
        return false;
    }
    keeper.spoil(0, b"two").is_ok() && is_body(alloc, keeper, b"two")
}

fn has_copy(alloc: Global, list: &Bodies) -> bool {
    match list.copy(alloc) {
        Ok(copy) => copy.len() == 1,
        Err(_) => false,
    }
}

#[test]
fn a_keeper_keeps_bodies(rt: HostRuntime) {
    let alloc = rt.alloc();
    let one = b"one".to_vec(alloc).expect(&rt, "the system");
    let mut list = Bodies::new(alloc);
    let pushed = list.push(one).is_ok();
    assert!(rt; pushed && has_copy(alloc, &list));
    let mut keeper = MemKeeper::new(alloc);
    assert!(rt; put_and_spoil(alloc, &mut keeper, &list));
}

fn add_three(shelf: &mut MemShelf) -> Result<(), ShelfFault> {
    shelf.add(b"d/b", b"2")?;
    shelf.add(b"d/a", b"1")?;
    shelf.add(b"da", b"3")
}

fn gives_its_files(alloc: Global, shelf: &mut MemShelf) -> bool {
    shelf.fail(3);
    holds(alloc, shelf, b"d/b", b"2")
        && lists(alloc, shelf, b"d", b"d/a") == 2
        && answers_file(alloc, shelf, b"d/b", ShelfFault::Failed)
        && shelf.faults() == 1
}

#[test]
fn a_shelf_gives_its_files(rt: HostRuntime) {
    let alloc = rt.alloc();
    let mut shelf = MemShelf::new(alloc);
    let added = add_three(&mut shelf).is_ok();
    assert!(rt; added && gives_its_files(alloc, &mut shelf));
}

/// A reader or a writer that is interrupted twice, fails, and then moves a byte a call.
#[derive(Drop)]
struct Line {
    calls: u8,
}

impl Line {
    fn answer(&mut self) -> io::Result<()> {
        self.calls = self.calls.saturating_add(1);
        match self.calls {
            1 | 2 => Err(Error::from(ErrorKind::Interrupted)),
            3 => Err(Error::from(ErrorKind::Other)),
            _ => Ok(()),
        }
    }
}

impl Read for Line {
    fn read(&mut self, buf: &mut [u8]) -> io::Result<usize> {
        let Some(first) = buf.first_mut() else {
            return Ok(0);
        };
        self.answer()?;
        *first = b'x';
        Ok(1)
    }
}

impl Write for Line {
    fn write(&mut self, buf: &[u8]) -> io::Result<usize> {
        self.answer()?;
        Ok(buf.len().min(1))
    }

    fn flush(&mut self) -> io::Result<()> {
        Ok(())
    }
}

#[test]
fn an_interrupted_read_is_no_fault(rt: HostRuntime) {
    let mut source = Reading::new(Line { calls: 0 });
    takes(&rt, &mut source, Taken::Failed);
    assert_eq!(rt; source.faults(), 1);
    let front = takes(&rt, &mut source, Taken::Bytes(1));
    assert_eq!(rt; front, b'x');
    assert_eq!(rt; source.faults(), 1);
}

#[test]
fn an_interrupted_write_is_no_fault(rt: HostRuntime) {
    let mut sink = Writing::new(Line { calls: 0 });
    puts(&rt, &mut sink, Put::Failed);
    assert_eq!(rt; sink.faults(), 1);
    puts(&rt, &mut sink, Put::Took(1));
    assert_eq!(rt; sink.faults(), 1);
}

#[test]
fn a_reader_and_a_writer_in_memory(rt: HostRuntime) {
    let mut source = Reading::new(b"abc".as_slice());
    let front = takes(&rt, &mut source, Taken::Bytes(2));
    let rest = takes(&rt, &mut source, Taken::Bytes(1));
    assert_eq!(rt; (front, rest), (b'a', b'c'));
    takes(&rt, &mut source, Taken::End);
    puts(&rt, &mut Writing::new(Vec::new(rt.alloc())), Put::Took(3));
}

#[test]
fn an_error_says_what_it_means_to_a_shelf(rt: HostRuntime) {
    for (kind, fault) in [
        (ErrorKind::NotFound, ShelfFault::Absent),
        (ErrorKind::NotADirectory, ShelfFault::Absent),
        (ErrorKind::InvalidFilename, ShelfFault::Absent),
        (ErrorKind::OutOfMemory, ShelfFault::Memory),
        (ErrorKind::PermissionDenied, ShelfFault::Failed),
        (ErrorKind::IsADirectory, ShelfFault::Failed),
        (ErrorKind::Interrupted, ShelfFault::Failed),
    ] {
        assert_eq!(rt; ShelfFault::from(Error::from(kind)), fault);
    }
}

#[test]
fn the_terminal_is_reached(rt: HostRuntime) {
    assert_eq!(rt; Writing::new(io::writer(&rt)).put(b"x"), Put::Took(1));
    let mut buf = [0u8; 8];
    assert!(rt; Reading::new(rt.reader()).take(&mut buf) != Taken::Failed);
}

fn make_files<R: Files>(rt: &R) -> io::Result<()> {
    fs::create_dir_all(rt, "shelf/d")?;
    fs::write(rt, "shelf/d/b", "2")?;
    fs::write(rt, "shelf/a", "1")
}

#[test]
fn the_folder_is_reached(rt: HostRuntime) {
    let alloc = rt.alloc();
    make_files(&rt).expect(&rt, "the system");
    let mut shelf = FolderShelf::new(&rt);
    let found = holds(alloc, &mut shelf, b"shelf/d/b", b"2")
        && lists(alloc, &mut shelf, b"shelf", b"shelf/a") == 2;
    assert!(rt; found);
    for outside in [
        b"shelf/../shelf/a".as_slice(),
        b"/etc/passwd",
        b"shelf",
        b"shelf/c",
    ] {
        assert!(rt; answers_file(alloc, &mut shelf, outside, ShelfFault::Absent));
    }
    fs::remove_dir_all(&rt, "shelf").expect(&rt, "the system");
}

fn is_absent<S: Shelf>(alloc: Global, shelf: &mut S, path: &[u8]) -> bool {
    answers_file(alloc, shelf, path, ShelfFault::Absent)
        && answers_folder(alloc, shelf, path, ShelfFault::Absent)
}

fn has_one_file<S: Shelf>(alloc: Global, shelf: &mut S) -> bool {
    lists(alloc, shelf, b"linked", b"linked/d/a") == 1
        && holds(alloc, shelf, b"linked/d/a", b"1")
        && shelf.faults() == 0
}

fn remove_links<R: Files + Alloc>(rt: &R) -> io::Result<()> {
    fs::remove_file(rt, "entry")?;
    fs::remove_dir_all(rt, "linked")
}

fn make_links<R: Files>(rt: &R) -> io::Result<()> {
    fs::create_dir_all(rt, "linked/d")?;
    fs::write(rt, "linked/d/a", "1")?;
    rt.symlink("d/a", "linked/file")?;
    rt.symlink("d", "linked/folder")?;
    rt.symlink("linked", "entry")
}

#[test]
fn what_a_link_leads_to_is_absent(rt: HostRuntime) {
    let alloc = rt.alloc();
    make_links(&rt).expect(&rt, "the system");
    let mut shelf = FolderShelf::new(&rt);
    for path in [
        b"linked/file".as_slice(),
        b"linked/folder",
        b"linked/folder/a",
        b"entry/d/a",
        b"entry/d",
    ] {
        assert!(rt; is_absent(alloc, &mut shelf, path));
    }
    assert!(rt; has_one_file(alloc, &mut shelf));
    remove_links(&rt).expect(&rt, "the system");
}

fn make_folders<R: Files>(rt: &R, alloc: Global) -> io::Result<()> {
    fs::create_dir_all(rt, "empty")?;
    for number in 1..4_096 {
        let name = format!(in alloc; "empty/{number}")?;
        fs::create_dir(rt, name.as_str())?;
    }
    Ok(())
}

#[test]
fn folders_without_files_can_be_too_many(rt: HostRuntime) {
    let alloc = rt.alloc();
    make_folders(&rt, alloc).expect(&rt, "the system");
    let mut shelf = FolderShelf::new(&rt);
    assert!(rt; answers_folder(alloc, &mut shelf, b"empty", ShelfFault::Absent));
    fs::create_dir(&rt, "empty/0").expect(&rt, "the system");
    assert!(rt; answers_folder(alloc, &mut shelf, b"empty", ShelfFault::TooLarge));
    fs::remove_dir_all(&rt, "empty").expect(&rt, "the system");
}
