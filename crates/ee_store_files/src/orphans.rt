//! Finds a log whose database file is gone. Nothing is written.
//!
//! No stop leaves such a log. A new file's first page is synced before anything is committed, and the log is short
//! until then; a file that has pages keeps at least one. So the file was moved, removed or emptied, and the log may
//! have replies that were given, also if it is damaged.

ghost use Rattle.std.specs.Prelude.{◌≡◌, ◌↔◌, IsTrue, IfOk};
ghost use Rattle.sqlite_disk.specs.Disk.{CountsFault};
ghost use Rattle.sqlite_wal.specs.Reads.{IsClean, AreClean, OnlyReads};
ghost use Rattle.sqlite.specs.Files.{image_of, faults_of};
ghost use Rattle.ee_store_files.specs.Orphans.{IsMarked, IsOfCreation, IsOrphan};

use sqlite::Files;
use sqlite_disk::Disk;
use std::io;

/// The length of a new log: a header, and a frame's header up to its gate.
const NEW_LOG: usize = 41;

/// The offset of the checkpoint count in the log's header.
const CHECKPOINTS: usize = 12;

/// Whether the log's header has the checkpoint count that it gets when a database is created.
pub fn is_marked<D: Disk>(log: &mut D) -> io::Result<bool>
    requires { IsTrue (D.Disk.is_usable log.old) }
    ensures ok { IfOk result (λ b. IsClean D.Disk log.new → (IsTrue b ↔ IsMarked (D.Disk.seen log.old))) }
    ensures faults { CountsFault result (D.Disk.faults log.old) (D.Disk.faults log.new) }
    ensures same { OnlyReads D.Disk log.old log.new }
{
    if log.len()? < CHECKPOINTS + 4 {
        return Ok(false);
    }
    let mut count = [0; 4];
    log.read_at(CHECKPOINTS, &mut count)?;
    Ok(count.iter().all(|byte| *byte == 0xff))
}

/// Whether a stop leaves such a log as a database is created.
fn is_of_creation<D: Disk>(log: &mut D) -> io::Result<bool>
    requires { IsTrue (D.Disk.is_usable log.old) }
    ensures ok { IfOk result (λ b. IsClean D.Disk log.new → (IsTrue b ↔ IsOfCreation (D.Disk.seen log.old))) }
    ensures faults { CountsFault result (D.Disk.faults log.old) (D.Disk.faults log.new) }
    ensures same { OnlyReads D.Disk log.old log.new }
{
    let len = log.len()?;
    if len == 0 {
        return Ok(true);
    }
    if len > NEW_LOG {
        return Ok(false);
    }
    let mut first = [0; 1];
    log.read_at(0, &mut first)?;
    if first[0] != 0x37 {
        return Ok(true);
    }
    is_marked(log)
}

/// Whether the file is empty, and no stop leaves such a log as a database is created.
pub fn is_orphan<D: Disk>(files: &mut Files<D>) -> io::Result<bool>
    requires log { IsTrue (D.Disk.is_usable files.old.log) }
    requires db { IsTrue (D.Disk.is_usable files.old.db) }
    ensures ok { IfOk result (λ b. AreClean D.Disk files.new.log files.new.db → (IsTrue b ↔ IsOrphan (image_of D.Disk files.old))) }
    ensures faults { CountsFault result (faults_of D.Disk files.old) (faults_of D.Disk files.new) }
    ensures log { OnlyReads D.Disk files.old.log files.new.log }
    ensures db { OnlyReads D.Disk files.old.db files.new.db }
{
    if files.db.len()? != 0 {
        return Ok(false);
    }
    let is_of_creation = is_of_creation(&mut files.log)?;
    Ok(!is_of_creation)
}
