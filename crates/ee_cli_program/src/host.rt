//! The host of a command line: all that it reaches beside its words, its streams and its store.

ghost use Rattle.std.specs.Prelude.{◌≡◌, ℕ, List, Option, None, IfOk};

use ee_cli_actions::Listens;
use ee_io::Source;
use std::fs::{self, File};
use std::io::{self, Eprint};
use std::net::TcpListener;
use std::time::Clock;

/// The host of a command line: memory, a clock, standard error, the files of imports, and ports. A command is passed no
/// other way to them. So the bytes that it takes for those of a file or of a connection were given to it here.
pub trait Host: AllocGlobal + Clock + Eprint {
    type File: Source + Drop;

    type Port: Listens + Drop;

    /// The bytes of the file at a path; `None` if they aren't known.
    ghost file: { Self → List ℕ → Option (List ℕ) };

    /// The bytes that each of the connections sends which come to a port, in their order; `None` if they aren't known.
    ghost coming: { Self → ℕ → Option (List (List ℕ)) };

    /// Opens the file at a path for reading, and says whether it is a folder.
    fn open_file(&self, path: &str) -> io::Result<(Self::File, bool)>
        ensures { IfOk result (λ both. Self.File.remaining both.0 ≡ file self.now path.now) };

    /// Listens on a port of 127.0.0.1.
    fn listen(&self, port: u16) -> io::Result<Self::Port>
        ensures { IfOk result (λ listener. Self.Port.coming listener ≡ coming self.now port) };
}

/// The system. Nothing is known of the bytes that its files and its sockets give.
impl Host for HostRuntime {
    type File = File;

    type Port = TcpListener;

    ghost file = { λ _ _. None };

    ghost coming = { λ _ _. None };

    fn open_file(&self, path: &str) -> io::Result<(File, bool)> {
        let file = fs::open(self, path)?;
        let is_folder = file.metadata().is_ok_and(|found| found.is_dir());
        Ok((file, is_folder))
    }

    fn listen(&self, port: u16) -> io::Result<TcpListener> {
        TcpListener::bind(self, ("127.0.0.1", port))
    }
}
