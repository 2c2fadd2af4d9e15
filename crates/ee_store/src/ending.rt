//! Closing a store in a file: checkpoints its log, and hands the files back.

ghost use Rattle.std.specs.Prelude.{IfOk, IfErr};
ghost use Rattle.sqlite.specs.Tree.{Trees};
ghost use Rattle.sqlite.specs.Files.{file_state};
ghost use Rattle.sqlite.specs.FileStore.{recovers, view};
ghost use Rattle.sqlite.specs.State.{HasCleanDisk};
ghost use Rattle.sqlite.specs.View.{IsClean};
ghost use Rattle.sqlite.specs.WalReads.{AreClean};
ghost use Rattle.ee_desk_laws.specs.Events.{World};
ghost use Rattle.ee_desk_laws.specs.Ties.{Leaves};
ghost use Rattle.ee_store_books.specs.Seen.{StandsFor};
ghost use Rattle.ee_store.specs.Served.{FollowsWorld};
ghost use Rattle.ee_store.specs.Ended.{EndsTested, FailsToEnd, RestsIn};
ghost use Rattle.ee_store.specs.History.{RestsAfter};

use crate::keeper::SqlKeeper;
use crate::laws::whole_history_law;
use ee_store_tables::Failure;
use sqlite::{Connection, FileStore, Files};
use sqlite_disk::Disk;

impl<D: Disk + Drop> SqlKeeper<FileStore<D>> {
    /// Checkpoints the log, as SQLite does when the last connection closes, and hands the files back. What is
    /// committed stays; the log stays on the disk, and is empty of changes.
    ///
    /// - `at_rest`: the database file alone, without its log, is then a store of the content: as the files read,
    ///   and as a crash may leave them.
    /// - `history`: whatever has happened since the store was new, that content is the one of requests that were
    ///   sent, each acting once, and each reply that was given is still the answer (`whole_history_law`).
    /// - `clean`: if the files returned what was written, the store was clean as it was closed.
    /// - `tested`: if the store's reads were tested, the files returned what was written, or two pages have one
    ///   digest.
    /// - `left`, `follows`: if it fails, a crash leaves what it could leave before, so what the next command finds
    ///   still follows the events.
    /// - `was_clean`: if what is left is clean, the store was clean as it was closed.
    /// - `cause`: it fails only if memory was refused, the device failed once more, or the store was shut before.
    ///
    /// # Errors
    ///
    /// Why, and the store.
    pub fn close_files(self) -> Result<Files<D>, (Failure, FileStore<D>)>
        ensures at_rest { IfOk result (λ files. RestsIn self.conn files) }
        ensures history { IfOk result (λ files. RestsAfter self.conn files) }
        ensures clean { IfOk result (λ files. AreClean D.Disk files.log files.db → HasCleanDisk (file_state self.conn)) }
        ensures tested { IfOk result (λ files. EndsTested self.conn files) }
        ensures left { IfErr result (λ e. (db : Trees) → recovers e.1 db → (file_state self.conn).may_leave db) }
        ensures follows { IfErr result (λ e. (w : World) → FollowsWorld (file_state self.conn) w → Leaves StandsFor (recovers e.1) w) }
        ensures was_clean { IfErr result (λ e. IsClean (view e.1) → HasCleanDisk (file_state self.conn)) }
        ensures cause { IfErr result (λ e. IsClean (view e.1) → FailsToEnd self.conn e.1 e.0) }
    {
        whole_history_law::<D>();
        // For the proof alone: a connection that has a schema sees a database, which `at_rest` needs.
        let _schema = self.conn.schema();
        match self.close().close_files() {
            Ok(files) => Ok(files),
            Err((error, store)) => Err((Failure::from(error), store)),
        }
    }
}
