//! Why the files at a path aren't opened.

ghost use Rattle.std.specs.Prelude.{◌≡◌};
ghost use Rattle.ee_store_files.specs.Causes.{cause_of_error, error_of};
ghost use Rattle.ee_store_files.specs.Inner.Causes.{cause_of_kind};

use crate::errors::{CANNOT_OPEN, DAMAGED, FULL, IO, NO_DATABASE, NO_MEMORY};
use sqlite::{Error, ErrorCode};
use std::io::ErrorKind;

/// Why the files at a path aren't opened.
#[derive(Clone, Copy, Debug, PartialEq, Eq)]
pub enum OpenCause {
    /// Memory was refused.
    NoMemory,
    /// SQLite takes the path for no file: it is `:memory:`, or begins with `file:`.
    NoFile,
    /// Another process, or another handle of this one, has the store open.
    InUse,
    /// A rollback journal of SQLite lies beside the file.
    Journal,
    /// The system refused the file, its log or its folder, with an error of this kind. A file that isn't one
    /// regular file with one name is `Unsupported`.
    System(ErrorKind),
    /// The system gave no random number.
    NoRandom,
    /// The file is no database.
    NoDatabase,
    /// The file is missing or empty, and its log shows that it was there before.
    Orphaned,
    /// The database or its log is damaged.
    Damaged,
    /// The disk is full.
    Full,
    /// Reading or writing the files failed.
    Failed,
}

impl OpenCause {
    /// The cause for an error of the system of this kind.
    pub(crate) fn of_kind(kind: ErrorKind) -> OpenCause
        ensures { result ≡ cause_of_kind kind }
    {
        match kind {
            ErrorKind::OutOfMemory => OpenCause::NoMemory,
            _ => OpenCause::System(kind),
        }
    }

    /// The cause for an error of `sqlite`, which didn't open the files.
    pub fn of_error(error: Error) -> OpenCause
        ensures { result ≡ cause_of_error error }
    {
        match error {
            Error::SqliteFailure(ErrorCode::OutOfMemory) => OpenCause::NoMemory,
            Error::SqliteFailure(ErrorCode::NotADatabase) => OpenCause::NoDatabase,
            Error::SqliteFailure(ErrorCode::CannotOpen) => OpenCause::Orphaned,
            Error::SqliteFailure(ErrorCode::DatabaseCorrupt) => OpenCause::Damaged,
            Error::SqliteFailure(ErrorCode::DiskFull) => OpenCause::Full,
            _ => OpenCause::Failed,
        }
    }

    /// The error of `sqlite` for this cause.
    pub fn error(self) -> Error
        ensures { result ≡ error_of self }
    {
        match self {
            OpenCause::NoMemory => NO_MEMORY,
            OpenCause::NoFile
            | OpenCause::Journal
            | OpenCause::System(_)
            | OpenCause::NoRandom
            | OpenCause::Orphaned => CANNOT_OPEN,
            OpenCause::InUse => Error::SqliteFailure(ErrorCode::DatabaseBusy),
            OpenCause::NoDatabase => NO_DATABASE,
            OpenCause::Damaged => DAMAGED,
            OpenCause::Full => FULL,
            OpenCause::Failed => IO,
        }
    }
}
