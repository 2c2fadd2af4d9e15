//! The errors for files that aren't opened.

ghost use Rattle.std.specs.Prelude.{◌≡◌, IsTrue};
ghost use Rattle.sqlite.specs.Opening.{is_open_error, reported};
ghost use Rattle.ee_store_files.specs.Inner.Opening.{error_of_probe};

use sqlite::{Error, ErrorCode};
use sqlite_store::OpenError;

pub const NO_MEMORY: Error = Error::SqliteFailure(ErrorCode::OutOfMemory);

pub const IO: Error = Error::SqliteFailure(ErrorCode::SystemIoFailure);

pub const FULL: Error = Error::SqliteFailure(ErrorCode::DiskFull);

pub const NO_DATABASE: Error = Error::SqliteFailure(ErrorCode::NotADatabase);

pub const DAMAGED: Error = Error::SqliteFailure(ErrorCode::DatabaseCorrupt);

pub const CANNOT_OPEN: Error = Error::SqliteFailure(ErrorCode::CannotOpen);

/// The error for a file that couldn't be examined, or whose log is refused.
pub fn probe_error(error: sqlite_wal::Error) -> Error
    ensures named { IsTrue (is_open_error result) }
    ensures value { result ≡ error_of_probe error }
{
    match error {
        sqlite_wal::Error::OutOfMemory => NO_MEMORY,
        sqlite_wal::Error::Io(_) => IO,
        sqlite_wal::Error::Full => FULL,
        _ => DAMAGED,
    }
}

/// The error for a database that couldn't be created.
pub fn create_error(error: OpenError) -> Error
    ensures named { IsTrue (is_open_error result) }
    ensures value { result ≡ reported error }
{
    match error {
        OpenError::OutOfMemory => NO_MEMORY,
        OpenError::Io => IO,
        OpenError::Full => FULL,
        OpenError::Refused => DAMAGED,
    }
}
