//! Why the system refused a file or a port.

ghost use Rattle.std.specs.Prelude.{◌≡◌};
ghost use Rattle.ee_cli_program.specs.Causes.{cause_of_kind};

use std::fmt;
use std::io::ErrorKind;

/// Why the system refused a file or a port, by the kind of its error.
#[derive(Clone, Copy, Debug, PartialEq, Eq)]
pub enum SystemCause {
    /// There is no such file, or no such folder.
    Missing,
    /// This user may not use it.
    Denied,
    /// It is a folder.
    Folder,
    /// A part of the path is no folder.
    NoFolder,
    /// The file system is read-only.
    ReadOnly,
    /// The disk is full.
    Full,
    /// A name of the path is too long.
    LongName,
    /// Symbolic links of the path lead in a circle.
    Circle,
    /// The other end of a pipe or a socket was closed.
    Unread,
    /// The address is in use.
    AddressInUse,
}

impl SystemCause {
    /// The cause for a kind of error; `None` for a kind that has no text here.
    pub fn of(kind: ErrorKind) -> Option<SystemCause>
        ensures { result ≡ cause_of_kind kind }
    {
        match kind {
            ErrorKind::NotFound => Some(SystemCause::Missing),
            ErrorKind::PermissionDenied => Some(SystemCause::Denied),
            ErrorKind::IsADirectory => Some(SystemCause::Folder),
            ErrorKind::NotADirectory => Some(SystemCause::NoFolder),
            ErrorKind::ReadOnlyFilesystem => Some(SystemCause::ReadOnly),
            ErrorKind::StorageFull => Some(SystemCause::Full),
            ErrorKind::InvalidFilename => Some(SystemCause::LongName),
            ErrorKind::FilesystemLoop => Some(SystemCause::Circle),
            ErrorKind::BrokenPipe => Some(SystemCause::Unread),
            ErrorKind::AddrInUse => Some(SystemCause::AddressInUse),
            _ => None,
        }
    }
}

/// Prints the cause, as `address in use`.
impl fmt::Display for SystemCause {
    ghost use Rattle.std.specs.Prelude.{Some};
    ghost use Rattle.ee_cli_program.specs.Causes.{system_text};

    ghost output = { λ cause. Some (system_text cause) };

    fn fmt<W: fmt::Write>(&self, f: &mut fmt::Formatter<W>) -> fmt::Result {
        f.write_str(match *self {
            SystemCause::Missing => "no such file or folder",
            SystemCause::Denied => "permission denied",
            SystemCause::Folder => "it is a folder",
            SystemCause::NoFolder => "a part of the path is no folder",
            SystemCause::ReadOnly => "the file system is read-only",
            SystemCause::Full => "no space left on the disk",
            SystemCause::LongName => "a name of the path is too long",
            SystemCause::Circle => "symbolic links lead in a circle",
            SystemCause::Unread => "nothing reads it",
            SystemCause::AddressInUse => "address in use",
        })
    }
}
