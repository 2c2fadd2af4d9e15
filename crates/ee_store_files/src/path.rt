//! Opening the files at a path.

ghost use Rattle.std.specs.Prelude.{codes, ◌≡◌, true, false, Err, IsTrue, IfOk, IfErr};
ghost use Rattle.sqlite_std_file.specs.File.{file_is_usable, IsFresh};
ghost use Rattle.ee_store_files.specs.Causes.{IsOfSystem};

use crate::causes::OpenCause;
use sqlite::{FileFrom, Files, Options, Start};
use sqlite_std_file::OpenError;
use std::hash::{BuildHasher, RandomState};

/// Opens the file at a path and its log, and creates missing ones. Refuses names that SQLite doesn't take
/// for a file.
fn open_pair<S: Start>(
    rt: &HostRuntime,
    path: &str,
    start: S,
) -> Result<Files<FileFrom<S>>, OpenCause>
    ensures memory { path.now ≡ codes ":memory:" → result ≡ Err OpenCause.NoFile }
    ensures usable { IfOk result (λ files. IsTrue (file_is_usable S.Start files.log) × IsTrue (file_is_usable S.Start files.db)) }
    ensures fresh { IfOk result (λ files. IsFresh true files.log × IsFresh false files.db) }
    ensures system { IfErr result IsOfSystem }
{
    if path == ":memory:" || path.starts_with("file:") {
        return Err(OpenCause::NoFile);
    }
    match sqlite_std_file::open(rt, path, start) {
        Ok(files) => Ok(files),
        Err(OpenError::OutOfMemory) => Err(OpenCause::NoMemory),
        Err(OpenError::Busy) => Err(OpenCause::InUse),
        Err(OpenError::HotJournal) => Err(OpenCause::Journal),
        Err(OpenError::Io(error)) => Err(OpenCause::of_kind(error.kind())),
    }
}

/// Chooses the size of a connection's cache, and a random number for the log's salts.
fn options(rt: &HostRuntime) -> Result<Options, OpenCause>
    ensures { IfErr result (λ cause. cause ≡ OpenCause.NoRandom) }
{
    let seed = RandomState::new(rt)
        .map_err(|_| OpenCause::NoRandom)?
        .hash_one(&0u8);
    Ok(Options::new(seed))
}

/// Opens the two files at a path, and chooses the options of a connection over them. `S` represents what the file
/// and its log held.
///
/// # Errors
///
/// The cause, which is one of the system's: nothing is open then.
pub fn open_path<S: Start>(
    rt: &HostRuntime,
    path: &str,
    start: S,
) -> Result<(Files<FileFrom<S>>, Options), OpenCause>
    ensures memory { path.now ≡ codes ":memory:" → result ≡ Err OpenCause.NoFile }
    ensures usable { IfOk result (λ it. IsTrue (file_is_usable S.Start it.0.log) × IsTrue (file_is_usable S.Start it.0.db)) }
    ensures fresh { IfOk result (λ it. IsFresh true it.0.log × IsFresh false it.0.db) }
    ensures system { IfErr result IsOfSystem }
{
    let files = open_pair(rt, path, start)?;
    let options = options(rt)?;
    Ok((files, options))
}
