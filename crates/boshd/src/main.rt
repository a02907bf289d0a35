//! `boshd` carries out a session of commands from standard input against a simulated cloud. What it keeps stands in two
//! files of the current folder, so that the next session finds it.
#![tactic(auto)]

mod words;

use crate::words::read_words;
use bosh_base::Text;
use bosh_keep_sql::{LoadFault, SqlKeeper};
use bosh_options::threads;
use bosh_ports::{FolderShelf, OpenGate, Reading, Writing};
use bosh_program::{Status, StoreName, run, unmade, usage};
use bosh_sql_files::{OpenFault, open};
use sqlite::{Alter, Connection, FileStore};
use sqlite_disk::Disk;
use std::io;
use std::process::ExitCode;

/// The file of the director's store.
const DIRECTOR: &str = "director.db";

/// The file of the cloud's store.
const CLOUD: &str = "cloud.db";

// A store that was not made.
fn not_made(rt: &HostRuntime, store: StoreName, fault: LoadFault) -> Status {
    match fault {
        LoadFault::Memory => Status::Memory,
        _ => unmade(rt.alloc(), store, &mut Writing::new(io::writer(rt))),
    }
}

// A store whose files are not open.
fn not_opened(rt: &HostRuntime, store: StoreName, fault: OpenFault) -> Status {
    match fault {
        OpenFault::Memory => Status::Memory,
        OpenFault::Failed => not_made(rt, store, LoadFault::Failed),
    }
}

// No file is made where the words are none of the command.
fn carry_out(rt: &HostRuntime, words: &[Text]) -> Status {
    match threads(rt.alloc(), words) {
        Ok(Some(_threads)) => with_words(rt, words),
        Ok(None) => usage(&mut Writing::new(io::writer(rt))),
        Err(_) => Status::Memory,
    }
}

fn with_words(rt: &HostRuntime, words: &[Text]) -> Status {
    match open(rt, DIRECTOR) {
        Ok(connection) => {
            let (status, store) = with_director(rt, words, connection);
            end(store);
            status
        }
        Err(fault) => not_opened(rt, StoreName::Director, fault),
    }
}

// How the session ended, and the director's store, where it is to be ended.
fn with_director<S: Alter + Drop>(
    rt: &HostRuntime,
    words: &[Text],
    connection: Connection<S>,
) -> (Status, Option<SqlKeeper<S>>) {
    match SqlKeeper::load(rt.alloc(), connection) {
        Ok(store) => with_store(rt, words, store),
        Err((_connection, fault)) => (not_made(rt, StoreName::Director, fault), None),
    }
}

fn with_store<S: Alter + Drop>(
    rt: &HostRuntime,
    words: &[Text],
    store: SqlKeeper<S>,
) -> (Status, Option<SqlKeeper<S>>) {
    match open(rt, CLOUD) {
        Ok(connection) => {
            let (status, store, cloud) = with_cloud(rt, words, store, connection);
            end(cloud);
            (status, store)
        }
        Err(fault) => (not_opened(rt, StoreName::Cloud, fault), Some(store)),
    }
}

fn with_cloud<S: Alter + Drop, T: Alter + Drop>(
    rt: &HostRuntime,
    words: &[Text],
    store: SqlKeeper<S>,
    connection: Connection<T>,
) -> (Status, Option<SqlKeeper<S>>, Option<SqlKeeper<T>>) {
    match SqlKeeper::load(rt.alloc(), connection) {
        Ok(cloud) => session(rt, words, store, cloud),
        Err((_connection, fault)) => (not_made(rt, StoreName::Cloud, fault), Some(store), None),
    }
}

fn session<S: Alter + Drop, T: Alter + Drop>(
    rt: &HostRuntime,
    words: &[Text],
    store: SqlKeeper<S>,
    cloud: SqlKeeper<T>,
) -> (Status, Option<SqlKeeper<S>>, Option<SqlKeeper<T>>) {
    let mut input = Reading::new(rt.reader());
    let mut out = Writing::new(io::writer(rt));
    let mut shelf = FolderShelf::new(rt);
    let ended = run(
        rt.alloc(),
        words,
        &mut input,
        &mut out,
        &mut shelf,
        store,
        cloud,
        &OpenGate,
    );
    match ended.into_stores() {
        (status, Some((store, cloud))) => (status, Some(store), Some(cloud)),
        (status, None) => (status, None, None),
    }
}

// Ends a store, so that its file is whole without its log. Where the log cannot be copied it stays, and nothing is lost by
// that: the next session goes on from both files, so it is not told.
fn end<D: Disk + Drop>(store: Option<SqlKeeper<FileStore<D>>>) {
    if let Some(store) = store {
        let _copied = store.close();
    }
}

fn main(rt: HostRuntime) -> ExitCode {
    match read_words(rt.alloc(), &rt) {
        Ok(words) => ExitCode::from(carry_out(&rt, words.as_slice()).code()),
        Err(_) => ExitCode::from(Status::Memory.code()),
    }
}
