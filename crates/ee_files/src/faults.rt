//! Faults of files.

use crate::columns::FileColumn;
use std::fmt;
use thiserror::Error;

/// Why a file gives no rows.
#[derive(Clone, Copy, Debug, PartialEq, Eq, Error)]
pub enum FileCode {
    /// The first record isn't the header.
    #[error("bad header")]
    BadHeader,
    /// A record has another number of fields than there are columns.
    #[error("wrong number of fields")]
    WrongFieldCount,
    /// A field spells no value of its column.
    #[error("bad {0}")]
    BadValue(FileColumn),
    /// A read failed, or was interrupted.
    #[error("the reader failed")]
    ReadFailed,
    /// Memory was refused.
    #[error("out of memory")]
    NoMemory,
    /// The file has more than 1,048,576 bytes.
    #[error("the file is too long")]
    FileTooLong,
}

impl FileCode {
    ghost use Rattle.std.specs.Prelude.{◌≡◌};
    ghost use Rattle.ee_files.specs.Faults.{code_of};

    /// The code of the fault, 70 to 75.
    pub const fn code(self) -> u8
        ensures { result ≡ code_of self }
    {
        match self {
            FileCode::BadHeader => 70,
            FileCode::WrongFieldCount => 71,
            FileCode::BadValue(_) => 72,
            FileCode::ReadFailed => 73,
            FileCode::NoMemory => 74,
            FileCode::FileTooLong => 75,
        }
    }
}

/// The first fault of a file, and its record. Records are counted from 1, which is the header;
/// `ReadFailed`, `NoMemory` and `FileTooLong` are faults of row 1.
#[derive(Clone, Copy, Debug, PartialEq, Eq)]
pub struct FileFault {
    pub row: u64,
    pub code: FileCode,
}

/// Prints `row 4 code 71`.
impl fmt::Display for FileFault {
    ghost use Rattle.std.specs.Prelude.{Some};
    ghost use Rattle.ee_files.specs.Faults.{fault_text};

    ghost output = { λ f. Some (fault_text f) };

    fn fmt<W: fmt::Write>(&self, f: &mut fmt::Formatter<W>) -> fmt::Result {
        let row = self.row;
        let code = self.code.code();
        write!(f, "row {row} code {code}")
    }
}

impl std::error::Error for FileFault {}

/// Why bonds were not written.
#[derive(Clone, Copy, Debug, PartialEq, Eq, Error)]
pub enum WriteFault {
    /// The writer failed. It has taken the front of the text, and not all of it.
    #[error("the writer failed")]
    WriteFailed,
    /// Memory was refused, before the first byte was written.
    #[error("out of memory")]
    NoMemory,
}
