//! Creating a database in two files, and finding out whether that is still to be done.

ghost use Rattle.std.specs.Prelude.{◌≡◌, ◌≤◌, ◌↔◌, [], true, IsTrue, IfOk, IfErr, OnOk};
ghost use Rattle.sqlite_disk.specs.Disk.{CountsFault};
ghost use Rattle.sqlite_wal.specs.Reads.{AreClean, OnlyReads};
ghost use Rattle.sqlite.specs.Opening.{is_open_error};
ghost use Rattle.sqlite.specs.State.{HasCleanDisk};
ghost use Rattle.sqlite.specs.Held.{IsNew};
ghost use Rattle.sqlite.specs.Files.{file_state, image_of, faults_of, faults_left, IsOpened, IsEmpty, IsCleanLeft, IsFullLeft};
ghost use Rattle.sqlite_store.specs.FileStore.{view, state, faults, IsReady, is_shielded};
ghost use Rattle.ee_store_files.specs.Orphans.{IsOrphan};
ghost use Rattle.ee_store_files.specs.Files.{page_size, IsStray, IsUncreated, Leaves};
ghost use Rattle.ee_store_files.specs.Opening.{Fails};
ghost use Rattle.ee_store_files.specs.Inner.Opening.{FailsToRead};

use crate::errors::{CANNOT_OPEN, IO, NO_DATABASE, NO_MEMORY, create_error, probe_error};
use crate::orphans::{is_marked, is_orphan};
use sqlite::{Connection, Error, FileStore, Files, Leftover, Options};
use sqlite_disk::Disk;
use sqlite_pager::{PageSize, Pager};
use sqlite_pool::probe_blank;
use sqlite_store::Unopened;
use std::alloc::{AllocFailed, Global};
use std::io;

/// The page size of a new store, in bytes.
const NEW_PAGE: usize = 1024;

/// Whether a new store's pages end in the checksum of SQLite's cksumvfs.
const HAS_SUMS: bool = true;

/// Whether the file is a single byte that no crash left there while a database was created.
fn is_stray<D: Disk>(files: &mut Files<D>) -> io::Result<bool>
    requires log { IsTrue (D.Disk.is_usable files.old.log) }
    requires db { IsTrue (D.Disk.is_usable files.old.db) }
    ensures ok { IfOk result (λ b. AreClean D.Disk files.new.log files.new.db → (IsTrue b ↔ IsStray (image_of D.Disk files.old))) }
    ensures faults { CountsFault result (faults_of D.Disk files.old) (faults_of D.Disk files.new) }
    ensures log { OnlyReads D.Disk files.old.log files.new.log }
    ensures db { OnlyReads D.Disk files.old.db files.new.db }
{
    if files.db.len()? != 1 {
        return Ok(false);
    }
    let is_marked = is_marked(&mut files.log)?;
    Ok(!is_marked)
}

/// Refuses a file that is a single stray byte, since it is no database, and an empty file whose log shows that it
/// was there before. Writes nothing.
fn refuse_strays<D: Disk>(files: &mut Files<D>) -> Result<(), Error>
    requires log { IsTrue (D.Disk.is_usable files.old.log) }
    requires db { IsTrue (D.Disk.is_usable files.old.db) }
    ensures named { IfErr result (λ e. IsTrue (is_open_error e)) }
    ensures taken { OnOk result (AreClean D.Disk files.new.log files.new.db → ¬ IsStray (image_of D.Disk files.old)) }
    ensures with_its_file { OnOk result (AreClean D.Disk files.new.log files.new.db → ¬ IsOrphan (image_of D.Disk files.old)) }
    ensures counts { faults_of D.Disk files.old ≤ faults_of D.Disk files.new }
    ensures cause { IfErr result (λ e. AreClean D.Disk files.new.log files.new.db
        → FailsToRead (image_of D.Disk files.old) (faults_of D.Disk files.old) (faults_of D.Disk files.new) e) }
    ensures log { OnlyReads D.Disk files.old.log files.new.log }
    ensures db { OnlyReads D.Disk files.old.db files.new.db }
{
    match is_stray(files) {
        Ok(false) => {}
        Ok(true) => return Err(NO_DATABASE),
        Err(_) => return Err(IO),
    }
    match is_orphan(files) {
        Ok(false) => Ok(()),
        Ok(true) => Err(CANNOT_OPEN),
        Err(_) => Err(IO),
    }
}

/// Whether a database is still to be created: the file is empty, or a crash left it half created. Writes
/// nothing.
///
/// # Errors
///
/// A file that is a single stray byte is refused, and so is an empty one whose log shows that it was there before.
pub fn is_uncreated<D: Disk>(alloc: Global, files: &mut Files<D>) -> Result<bool, Error>
    requires log { IsTrue (D.Disk.is_usable files.old.log) }
    requires db { IsTrue (D.Disk.is_usable files.old.db) }
    ensures named { IfErr result (λ e. IsTrue (is_open_error e)) }
    ensures ok { IfOk result (λ b. AreClean D.Disk files.new.log files.new.db → (IsTrue b ↔ IsUncreated (image_of D.Disk files.old))) }
    ensures taken { OnOk result (AreClean D.Disk files.new.log files.new.db → ¬ IsStray (image_of D.Disk files.old)) }
    ensures with_its_file { OnOk result (AreClean D.Disk files.new.log files.new.db → ¬ IsOrphan (image_of D.Disk files.old)) }
    ensures counts { faults_of D.Disk files.old ≤ faults_of D.Disk files.new }
    ensures cause { IfErr result (λ e. AreClean D.Disk files.new.log files.new.db
        → FailsToRead (image_of D.Disk files.old) (faults_of D.Disk files.old) (faults_of D.Disk files.new) e) }
    ensures log { OnlyReads D.Disk files.old.log files.new.log }
    ensures db { OnlyReads D.Disk files.old.db files.new.db }
{
    refuse_strays(files)?;
    let size = PageSize::new(NEW_PAGE).unwrap();
    match probe_blank(alloc, files, size, HAS_SUMS) {
        Ok(is_blank) => Ok(is_blank),
        Err(error) => Err(probe_error(error)),
    }
}

/// Creates an empty database.
fn create_store<D: Disk>(
    alloc: Global,
    files: Files<D>,
    options: Options,
) -> Result<FileStore<D>, (Error, Leftover<D>)>
    requires log { IsTrue (D.Disk.is_usable files.log) }
    requires db { IsTrue (D.Disk.is_usable files.db) }
    requires uncreated { AreClean D.Disk files.log files.db → IsUncreated (image_of D.Disk files) }
    ensures named { IfErr result (λ e. IsTrue (is_open_error e.0)) }
    ensures honest { IfOk result (λ store. IsTrue (view store).is_clean → AreClean D.Disk files.log files.db) }
    ensures ready { IfOk result IsReady }
    ensures numbered { IfOk result (λ store. IsTrue (view store).is_numbered) }
    ensures guarded { IfOk result (λ store. IsTrue (view store).is_clean → is_shielded store) }
    ensures empty { IfOk result (λ store. IsTrue (view store).is_clean → IsEmpty (view store).committed) }
    ensures sums { IfOk result (λ store. IsTrue (view store).is_clean → (view store).has_sums ≡ true) }
    ensures size { IfOk result (λ store. IsTrue (view store).is_clean → (state store).page_size ≡ page_size) }
    ensures counts { IfOk result (λ store. IsTrue (view store).is_clean → faults_of D.Disk files ≤ faults store) }
    ensures cause { IfErr result (λ e. IsCleanLeft e.1 → Fails (faults_of D.Disk files) (faults_left e.1) (IsFullLeft e.1) e.0) }
    ensures unharmed { IfErr result (λ e. IsCleanLeft e.1 → Leaves files e.1) }
{
    let size = PageSize::new(NEW_PAGE).unwrap();
    let pager = match Pager::new(alloc, files, size, options) {
        Ok(pager) => pager,
        Err(AllocFailed { value }) => return Err((NO_MEMORY, Leftover::Files(value))),
    };
    let fresh = match Unopened::with_sums(alloc, pager, &[], HAS_SUMS) {
        Ok(fresh) => fresh,
        Err(AllocFailed { value }) => return Err((NO_MEMORY, Leftover::Files(value.close()))),
    };
    match fresh.create() {
        Ok(store) => Ok(store),
        Err((error, left)) => Err((create_error(error), Leftover::Unopened(left))),
    }
}

/// Creates an empty database with small pages, and opens it.
pub fn create<D: Disk + Drop>(
    alloc: Global,
    files: Files<D>,
    options: Options,
) -> Result<Connection<FileStore<D>>, (Error, Leftover<D>)>
    requires log { IsTrue (D.Disk.is_usable files.log) }
    requires db { IsTrue (D.Disk.is_usable files.db) }
    requires uncreated { AreClean D.Disk files.log files.db → IsUncreated (image_of D.Disk files) }
    ensures named { IfErr result (λ e. IsTrue (is_open_error e.0)) }
    ensures opened { IfOk result (λ c. HasCleanDisk (file_state c) → IsOpened c) }
    ensures guarded { IfOk result (λ c. HasCleanDisk (file_state c) → (file_state c).IsShielded) }
    ensures made { IfOk result (λ c. HasCleanDisk (file_state c) → AreClean D.Disk files.log files.db × IsEmpty (file_state c).committed.trees) }
    ensures sums { IfOk result (λ c. HasCleanDisk (file_state c) → (view c.store).has_sums ≡ true) }
    ensures fresh { IfOk result IsNew }
    ensures cause { IfErr result (λ e. IsCleanLeft e.1 → Fails (faults_of D.Disk files) (faults_left e.1) (IsFullLeft e.1) e.0) }
    ensures unharmed { IfErr result (λ e. IsCleanLeft e.1 → Leaves files e.1) }
{
    let store = create_store(alloc, files, options)?;
    match Connection::over(alloc, store) {
        Ok(conn) => Ok(conn),
        Err((error, store)) => Err((error, Leftover::Store(store))),
    }
}
