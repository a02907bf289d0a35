ghost use Rattle.std.specs.Prelude.{◌≡◌, [], IsTrue, IfOk};
ghost use Rattle.bosh_sql_files.specs.Finding.{FindsOrBegins, cached_pages, new_page};
ghost use Rattle.sqlite.specs.Files.{file_state, IsEmpty, IsOpened};
ghost use Rattle.sqlite.specs.Held.{IsNew};
ghost use Rattle.sqlite.specs.Opening.{IsMade};
ghost use Rattle.sqlite.specs.State.{HasCleanDisk};
ghost use Rattle.sqlite_pool.specs.Opening.{IsBlankFile};
ghost use Rattle.sqlite_store.specs.FileStore.{is_shielded, state as store_state, view};
ghost use Rattle.sqlite_store.specs.Unopened.{AreUsable, files_of, state_of, wanted_by};
ghost use Rattle.sqlite_wal.specs.PageSize.{bytes_of};
ghost use Rattle.sqlite_wal.specs.Reads.{AreClean};

use crate::OpenFault;
use crate::fault::{create_fault_of, open_fault_of, probe_fault_of};
use sqlite::{Connection, FileStore, Files, Options};
use sqlite_disk::Disk;
use sqlite_pager::Pager;
use sqlite_pool::probe_blank;
use sqlite_store::Unopened;
use sqlite_wal::PageSize;
use std::alloc::{AllocFailed, Global};

/// The bytes of a page of a store that begins.
const NEW_PAGE: usize = 1024;

/// How many pages that were read are kept in memory.
const CACHED_PAGES: usize = 32;

/// What the files of a store are opened with.
pub fn options_of(seed: u64) -> Options
    ensures memory { (result.cache_pages ≡ cached_pages) × (result.spill_pages ≡ 2000) }
    ensures log { result.checkpoint_frames ≡ 1000 }
    ensures seed { result.seed ≡ seed }
{
    let mut options = Options::new(seed);
    options.cache_pages = CACHED_PAGES;
    options
}

fn new_size() -> PageSize
    ensures { bytes_of result ≡ new_page }
{
    PageSize::new(NEW_PAGE).unwrap()
}

/// The files of a store that begins, before anything is written.
fn unopened<D: Disk + Drop>(
    alloc: Global,
    files: Files<D>,
    options: Options,
) -> Result<Unopened<D>, OpenFault>
    ensures files { IfOk result (λ fresh. files_of fresh ≡ (files.log, files.db)) }
    ensures size { IfOk result (λ fresh. (state_of fresh).page_size ≡ new_page) }
    ensures none { IfOk result (λ fresh. wanted_by fresh ≡ []) }
{
    let pager = match Pager::new(alloc, files, new_size(), options) {
        Ok(pager) => pager,
        Err(_) => return Err(OpenFault::Memory),
    };
    match Unopened::new(alloc, pager, &[]) {
        Ok(fresh) => Ok(fresh),
        Err(AllocFailed { value }) => {
            drop(value.close());
            Err(OpenFault::Memory)
        }
    }
}

/// Makes an empty database in them.
fn made<D: Disk + Drop>(fresh: Unopened<D>) -> Result<FileStore<D>, OpenFault>
    requires usable { AreUsable fresh }
    requires none { wanted_by fresh ≡ [] }
    ensures honest { IfOk result (λ store. IsTrue (view store).is_clean → IsTrue (state_of fresh).is_clean) }
    ensures guarded { IfOk result (λ store. IsTrue (view store).is_clean → is_shielded store) }
    ensures made { IfOk result (λ store. IsTrue (view store).is_clean → IsMade fresh store) }
    ensures size { IfOk result (λ store. IsTrue (view store).is_clean → (store_state store).page_size ≡ (state_of fresh).page_size) }
{
    match fresh.create() {
        Ok(store) => Ok(store),
        Err((error, left)) => {
            drop(left.close());
            Err(create_fault_of(error))
        }
    }
}

/// The empty database of a store that begins.
fn begin<D: Disk + Drop>(
    alloc: Global,
    files: Files<D>,
    options: Options,
) -> Result<Connection<FileStore<D>>, OpenFault>
    requires log { IsTrue (D.Disk.is_usable files.log) }
    requires db { IsTrue (D.Disk.is_usable files.db) }
    ensures opened { IfOk result (λ connection. HasCleanDisk (file_state connection) → IsOpened connection) }
    ensures honest { IfOk result (λ connection. HasCleanDisk (file_state connection) → AreClean D.Disk files.log files.db) }
    ensures empty { IfOk result (λ connection. HasCleanDisk (file_state connection) → IsEmpty (file_state connection).committed.trees) }
    ensures fresh { IfOk result IsNew }
    ensures guarded { IfOk result (λ connection. HasCleanDisk (file_state connection) → (file_state connection).IsShielded) }
{
    let fresh = unopened(alloc, files, options)?;
    let store = made(fresh)?;
    match Connection::over(alloc, store) {
        Ok(connection) => Ok(connection),
        Err((error, left)) => {
            drop(left.close());
            Err(open_fault_of(error))
        }
    }
}

/// The database that two files hold. Where they hold nothing yet, as new ones do and those of a store whose beginning
/// was cut off, it is an empty one of small pages; any other file stays as it is, with pages of its own size.
pub fn open_files<D: Disk + Drop>(
    alloc: Global,
    files: Files<D>,
    options: Options,
) -> Result<Connection<FileStore<D>>, OpenFault>
    requires log { IsTrue (D.Disk.is_usable files.log) }
    requires db { IsTrue (D.Disk.is_usable files.db) }
    ensures opened { IfOk result (λ connection. HasCleanDisk (file_state connection) → IsOpened connection) }
    ensures found { IfOk result (λ connection. HasCleanDisk (file_state connection) → FindsOrBegins files connection) }
    ensures fresh { IfOk result IsNew }
    ensures guarded { IfOk result (λ connection. HasCleanDisk (file_state connection) → (file_state connection).IsShielded) }
{
    let mut files = files;
    match probe_blank(alloc, &mut files, new_size(), false) {
        Ok(true) => return begin(alloc, files, options),
        Ok(false) => {}
        Err(error) => return Err(probe_fault_of(error)),
    }
    match Connection::open_files(alloc, files, options) {
        Ok(connection) => Ok(connection),
        Err((error, _left)) => Err(open_fault_of(error)),
    }
}
