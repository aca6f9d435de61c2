//! Books in files.

ghost use Rattle.std.specs.Prelude.{◌≡◌, ◌≢◌, true, false, IsTrue, IfOk, IfErr};
ghost use Rattle.sqlite_wal.specs.Files.{image_at};
ghost use Rattle.sqlite_std_file.specs.File.{file_is_usable, IsFresh};
ghost use Rattle.sqlite.specs.State.{HasCleanDisk};
ghost use Rattle.sqlite.specs.Held.{IsNew};
ghost use Rattle.sqlite.specs.Start.{FindsIn};
ghost use Rattle.sqlite.specs.Files.{file_state, over_files};
ghost use Rattle.plan_store.specs.declared.fault.StoreFault.TheVariants.{NotOurs, Version};
ghost use Rattle.plan_store.specs.Reload.{IsInOrder};
ghost use Rattle.plan_store.specs.BookCalls.{IsDurable};
ghost use Rattle.plan_store.specs.OnDisk.{IsTakenFrom, IsRefusedFrom};

use crate::adoption::take_tables;
use crate::fault::{StoreFault, store_fault_of};
use crate::leftover::Leftover;
use crate::sql_book::SqlBook;
use sqlite::{Connection, FileFrom, FileStore, Files, Options, Start};
use sqlite_std_file::OpenError;
use std::hash::{BuildHasher, RandomState};
use std::io::ErrorKind;
use std::rt::HostRuntime;

// The number of database pages that are kept in memory. They take 1 MB.
const PAGES_KEPT: usize = 256;

// Opens the files at a path. It rejects the names that SQLite doesn't read as a path.
fn files_at<F: Start>(
    rt: &HostRuntime,
    path: &str,
    start: F,
) -> Result<Files<FileFrom<F>>, StoreFault>
    ensures log { IfOk result (λ files. IsTrue (file_is_usable F.Start files.log)) }
    ensures db { IfOk result (λ files. IsTrue (file_is_usable F.Start files.db)) }
    ensures fresh { IfOk result (λ files. IsFresh true files.log × IsFresh false files.db) }
    ensures ours { IfErr result (λ fault. fault ≢ NotOurs) }
    ensures known { IfErr result (λ fault. fault ≢ Version) }
{
    if path == ":memory:" || path.starts_with("file:") {
        return Err(StoreFault::Store);
    }
    match sqlite_std_file::open(rt, path, start) {
        Ok(files) => Ok(files),
        Err(OpenError::OutOfMemory) => Err(StoreFault::NoMemory),
        Err(OpenError::Io(error)) if error.kind() == ErrorKind::OutOfMemory => {
            Err(StoreFault::NoMemory)
        }
        Err(_) => Err(StoreFault::Store),
    }
}

// Returns the default options, except for the pages in memory. The log begins at a random number.
fn options(rt: &HostRuntime) -> Result<Options, StoreFault>
    // A checkpoint after 1,000 frames bounds the size of the log.
    ensures log { IfOk result (λ options. options.checkpoint_frames ≡ 1000) }
    ensures pages { IfOk result (λ options. options.cache_pages ≡ 256) }
    ensures ours { IfErr result (λ fault. fault ≢ NotOurs) }
    ensures known { IfErr result (λ fault. fault ≢ Version) }
{
    let Ok(state) = RandomState::new(rt) else {
        return Err(StoreFault::Store);
    };
    let mut options = Options::new(state.hash_one(&0u8));
    options.cache_pages = PAGES_KEPT;
    Ok(options)
}

// Opens a connection to the files at a path. The rows of a sound file are in the order of their
// numbers, so its tables needn't be reloaded.
fn open_at<F: Start>(
    rt: &HostRuntime,
    path: &str,
    start: F,
) -> Result<Connection<FileStore<FileFrom<F>>>, StoreFault>
    ensures found { IfOk result (λ c. HasCleanDisk (file_state c)
        → FindsIn (image_at F.Start) (file_state c)) }
    ensures fresh { IfOk result IsNew }
    ensures in_order { IfOk result (λ c. HasCleanDisk (file_state c)
        → IsInOrder (file_state c)) }
    ensures ours { IfErr result (λ fault. fault ≢ NotOurs) }
    ensures known { IfErr result (λ fault. fault ≢ Version) }
{
    let files = files_at(rt, path, start)?;
    let options = options(rt)?;
    Connection::open_files(rt.alloc(), files, options).map_err(|(error, _)| store_fault_of(error))
}

impl<F: Start> SqlBook<FileStore<FileFrom<F>>> {
    /// Opens the book in the database file at a path and the log beside it. A missing or empty file
    /// has no tables, so the error is `NotOurs`. If the file isn't a database or can't be opened,
    /// it is `Store`. No clause relates the files to the path: review `files_at` and
    /// `sqlite_std_file::open`.
    pub fn open_from(
        rt: &HostRuntime,
        path: &str,
        start: F,
    ) -> Result<
        SqlBook<FileStore<FileFrom<F>>>,
        (StoreFault, Option<Leftover<FileStore<FileFrom<F>>>>),
    >
        ensures found { IfOk result (λ b. IsTakenFrom F.Start b.conn over_files) }
        ensures durable { IfOk result (λ b. IsDurable (file_state b.conn)) }
        ensures refused { IfErr result (λ e. IsRefusedFrom F.Start e.0 e.1 over_files) }
    {
        let mut conn = open_at(rt, path, start).map_err(|fault| (fault, None))?;
        match take_tables(rt.alloc(), &mut conn) {
            Ok(kept) => Ok(SqlBook::on_tables(rt.alloc(), conn, kept)),
            Err(fault) => Err((fault, Some(Leftover::Connection(conn)))),
        }
    }
}
