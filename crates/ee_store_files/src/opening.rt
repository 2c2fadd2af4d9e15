//! Opening a database in two files.

ghost use Rattle.std.specs.Prelude.{◌≡◌, true, IsTrue, IfOk, IfErr};
ghost use Rattle.sqlite.specs.Opening.{is_open_error};
ghost use Rattle.sqlite.specs.State.{HasCleanDisk};
ghost use Rattle.sqlite.specs.Held.{IsNew};
ghost use Rattle.sqlite.specs.Files.{file_state, image_of, IsOpened, IsCleanLeft, LeavesFiles, Finds as FindsIn};
ghost use Rattle.sqlite_store.specs.FileStore.{view};
ghost use Rattle.ee_store_files.specs.Damage.{IsDamaged};
ghost use Rattle.ee_store_files.specs.Files.{IsUncreated, Finds, Leaves};
ghost use Rattle.ee_store_files.specs.Opening.{FailsToOpen};

use crate::creating::{create, is_uncreated};
use crate::damage::is_damaged;
use crate::errors::DAMAGED;
use sqlite::{Connection, Error, FileStore, Files, Leftover, Options};
use sqlite_disk::Disk;
use std::alloc::Global;

/// Opens the database in two files, unless its log is damaged.
///
/// # Errors
///
/// The error comes with what is left of the files. A damaged log is refused as it is.
fn open_intact<D: Disk + Drop>(
    alloc: Global,
    mut files: Files<D>,
    options: Options,
) -> Result<Connection<FileStore<D>>, (Error, Leftover<D>)>
    requires log { IsTrue (D.Disk.is_usable files.log) }
    requires db { IsTrue (D.Disk.is_usable files.db) }
    ensures named { IfErr result (λ e. IsTrue (is_open_error e.0)) }
    ensures opened { IfOk result (λ c. HasCleanDisk (file_state c) → IsOpened c) }
    ensures found { IfOk result (λ c. HasCleanDisk (file_state c) → FindsIn files c × (¬ IsDamaged (image_of D.Disk files))) }
    ensures fresh { IfOk result IsNew }
    ensures guarded { IfOk result (λ c. HasCleanDisk (file_state c) → (file_state c).IsShielded) }
    ensures cause { IfErr result (λ e. IsCleanLeft e.1 → FailsToOpen files e.1 e.0) }
    ensures unharmed { IfErr result (λ e. IsCleanLeft e.1 → LeavesFiles files e.1) }
{
    match is_damaged(alloc, &mut files) {
        Ok(false) => Connection::open_files(alloc, files, options),
        Ok(true) => Err((DAMAGED, Leftover::Files(files))),
        Err(error) => Err((error, Leftover::Files(files))),
    }
}

/// Opens the database in two files, with its own page size. In an empty file, or one that a crash left half
/// created, creates an empty database with pages of 1,024 bytes.
///
/// # Errors
///
/// The error comes with what is left of the files. A file that is a single byte is refused, unless a crash
/// left it there while a database was created. So is a file whose log is damaged or was written by another
/// program, and no file is changed then.
///
/// - `cause`: memory was refused, a call on a file failed, the files are as long as `sqlite` takes them, or they
///   are refused for what they hold. That a file which a crash left half created isn't refused is no clause.
pub fn open_files<D: Disk + Drop>(
    alloc: Global,
    mut files: Files<D>,
    options: Options,
) -> Result<Connection<FileStore<D>>, (Error, Leftover<D>)>
    requires log { IsTrue (D.Disk.is_usable files.log) }
    requires db { IsTrue (D.Disk.is_usable files.db) }
    ensures named { IfErr result (λ e. IsTrue (is_open_error e.0)) }
    ensures opened { IfOk result (λ c. HasCleanDisk (file_state c) → IsOpened c) }
    ensures found { IfOk result (λ c. HasCleanDisk (file_state c) → Finds (image_of D.Disk files) (file_state c)) }
    ensures sums { IfOk result (λ c. HasCleanDisk (file_state c) → IsUncreated (image_of D.Disk files) → (view c.store).has_sums ≡ true) }
    ensures fresh { IfOk result IsNew }
    ensures guarded { IfOk result (λ c. HasCleanDisk (file_state c) → (file_state c).IsShielded) }
    ensures cause { IfErr result (λ e. IsCleanLeft e.1 → FailsToOpen files e.1 e.0) }
    ensures unharmed { IfErr result (λ e. IsCleanLeft e.1 → Leaves files e.1) }
{
    match is_uncreated(alloc, &mut files) {
        Ok(true) => create(alloc, files, options),
        Ok(false) => open_intact(alloc, files, options),
        Err(error) => Err((error, Leftover::Files(files))),
    }
}
